//! What is heard on a stream of line bytes: the events.
#![tactic(auto)]

ghost use Rattle.std.specs.Prelude.{◌≡◌, Some};
ghost use Rattle.reading.specs.Events.{event_of, name_of};
ghost use Rattle.reading.specs.Values.{told};

use std::fmt;
use verdict::Refusal;

/// One event, or the wish for more.
#[derive(Clone, Copy, Debug, PartialEq, Eq, Hash)]
pub enum Event {
    More,
    Noise,
    Length,
    End,
    Sum,
    Packet(usize),
}

/// The events that are no refused start have numbers of our own, which C sees.
pub const MORE: u8 = 32;

pub const NOISE: u8 = 33;

pub const PACKET: u8 = 34;

impl Event {
    /// The number that C sees: document 01's, or one of our own.
    #[inline]
    #[tactic(auto, unfolding(crate::specs::Values::told))]
    pub fn number(self) -> u8
        ensures { result ≡ (told (event_of self)).number }
    {
        match self {
            Event::More => MORE,
            Event::Noise => NOISE,
            Event::Length => Refusal::Length.number(),
            Event::End => Refusal::End.number(),
            Event::Sum => Refusal::Sum.number(),
            Event::Packet(_) => PACKET,
        }
    }

    /// The packet's length, 0 where there is none.
    #[inline]
    #[tactic(auto, unfolding(crate::specs::Values::told))]
    pub fn length(self) -> usize
        ensures { result ≡ (told (event_of self)).length }
    {
        match self {
            Event::Packet(length) => length,
            _ => 0,
        }
    }

    /// The name that the programs print.
    pub fn name(self) -> &'static str
        ensures { result.now ≡ name_of self }
    {
        match self {
            Event::More => "MORE",
            Event::Noise => "NOISE",
            Event::Length => Refusal::Length.name(),
            Event::End => Refusal::End.name(),
            Event::Sum => Refusal::Sum.name(),
            Event::Packet(_) => "PACKET",
        }
    }
}

impl fmt::Display for Event {
    ghost output = { λ event. Some (name_of event) };

    fn fmt<W: fmt::Write>(&self, f: &mut fmt::Formatter<W>) -> fmt::Result {
        f.write_str(self.name())
    }
}
