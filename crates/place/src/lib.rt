//! One place of the exchange table, and what a reply and a denial make of it.
#![tactic(auto)]

ghost use Rattle.std.specs.Prelude.{◌≡◌, eqb, Some};
ghost use Rattle.place.specs.Modes as modes;
ghost use Rattle.place.specs.Outcomes.{number_of, name_of, Decodes, in_numbers};
ghost use Rattle.place.specs.Rules.{free, is_open, is_zero, weight};
ghost use Rattle.place.specs.Steps.{outcomes, awaits, becomes, denied, replied};

use std::error::Error;
use std::fmt;

/// What a place holds; free is 0, so that a place of zeros is the free one.
#[derive(Clone, Copy, Debug, PartialEq, Eq, Hash)]
pub enum Mode {
    Free = 0,
    Send = 1,
    Request = 2,
}

/// A number that no mode has.
#[derive(Clone, Copy, Debug, PartialEq, Eq, Hash)]
pub struct UnknownMode(pub u16);

/// What is told of an exchange, under numbers that no refusal has.
#[derive(Clone, Copy, Debug, PartialEq, Eq, Hash)]
pub enum Outcome {
    Nothing = 0,
    Confirmed = 40,
    Answered = 41,
    Resent = 42,
    Failed = 43,
}

/// A number that no outcome has.
#[derive(Clone, Copy, Debug, PartialEq, Eq, Hash)]
pub struct UnknownOutcome(pub u8);

/// Four numbers of one width, eight bytes in all, so that a place is copied and tested for zero as one number. The mode is a number, as C sees it.
// The mode is C's number: sixteen places changed to an enum and back cost 601 instructions where a whole call has 300 to 700.
#[repr(C)]
#[derive(Clone, Copy, Debug, Default, PartialEq, Eq, Hash)]
pub struct Place {
    pub serial: u16,
    pub mode: u16,
    pub resends: u16,
    pub age: u16,
}

/// What a reply's packet is; a bad answer is an answer that was refused at VERSION or later.
#[derive(Clone, Copy, Debug, PartialEq, Eq, Hash)]
pub enum Reply {
    Confirm,
    Answer,
    Deny,
    BadAnswer,
}

/// What a place becomes, and what is told of it.
#[derive(Clone, Copy, Debug, PartialEq, Eq, Hash)]
pub struct Step {
    pub place: Place,
    pub outcome: Outcome,
}

/// The number of every outcome, in their order.
pub fn all_outcomes() -> [u8; 5]
    ensures { result ≡ outcomes }
{
    [
        Outcome::Nothing.number(),
        Outcome::Confirmed.number(),
        Outcome::Answered.number(),
        Outcome::Resent.number(),
        Outcome::Failed.number(),
    ]
}

/// Whether a place of this mode holds an exchange.
#[inline]
#[tactic(auto, using(crate::proofs::Answers::unknown_closed), unfolding(crate::specs::Rules::is_open))]
pub fn is_open(mode: u16) -> bool
    ensures { result ≡ is_open mode }
{
    matches!(Mode::try_from(mode), Ok(Mode::Send | Mode::Request))
}

/// Whether an exchange of this mode waits for such a reply.
#[inline]
pub fn awaits(mode: u16, reply: Reply) -> bool
    ensures { result ≡ awaits mode reply }
{
    match reply {
        Reply::Confirm => mode == Mode::Send.number(),
        Reply::Answer | Reply::BadAnswer => mode == Mode::Request.number(),
        Reply::Deny => is_open(mode),
    }
}

impl Mode {
    /// The number that C sees.
    #[inline]
    pub fn number(self) -> u16
        ensures { result ≡ modes.number_of self }
    {
        self as u16
    }
}

impl TryFrom<u16> for Mode {
    type Error = UnknownMode;

    ghost try_from_gives = { modes.Decodes };

    #[inline]
    fn try_from(number: u16) -> Result<Self, UnknownMode> {
        match number {
            0 => Ok(Mode::Free),
            1 => Ok(Mode::Send),
            2 => Ok(Mode::Request),
            _ => Err(UnknownMode(number)),
        }
    }
}

impl Outcome {
    /// The number that C sees.
    #[inline]
    pub fn number(self) -> u8
        ensures { result ≡ number_of self }
    {
        self as u8
    }

    /// The name that the programs print; where nothing is told all is well.
    pub fn name(self) -> &'static str
        ensures { result.now ≡ name_of self }
    {
        match self {
            Outcome::Nothing => "OK",
            Outcome::Confirmed => "CONFIRMED",
            Outcome::Answered => "ANSWERED",
            Outcome::Resent => "RESENT",
            Outcome::Failed => "FAILED",
        }
    }
}

impl TryFrom<u8> for Outcome {
    type Error = UnknownOutcome;

    ghost try_from_gives = { Decodes };

    fn try_from(number: u8) -> Result<Self, UnknownOutcome> {
        match number {
            0 => Ok(Outcome::Nothing),
            40 => Ok(Outcome::Confirmed),
            41 => Ok(Outcome::Answered),
            42 => Ok(Outcome::Resent),
            43 => Ok(Outcome::Failed),
            _ => Err(UnknownOutcome(number)),
        }
    }
}

impl fmt::Display for Outcome {
    ghost output = { λ outcome. Some (name_of outcome) };

    fn fmt<W: fmt::Write>(&self, f: &mut fmt::Formatter<W>) -> fmt::Result {
        f.write_str(self.name())
    }
}

impl fmt::Display for UnknownMode {
    fn fmt<W: fmt::Write>(&self, f: &mut fmt::Formatter<W>) -> fmt::Result {
        write!(f, "no mode has number {}", self.0)
    }
}

impl fmt::Display for UnknownOutcome {
    fn fmt<W: fmt::Write>(&self, f: &mut fmt::Formatter<W>) -> fmt::Result {
        write!(f, "no outcome has number {}", self.0)
    }
}

impl Error for UnknownMode {}

impl Error for UnknownOutcome {}

impl Step {
    /// The end of an exchange: its place is freed.
    #[inline]
    fn ended(outcome: Outcome) -> Step
        ensures { in_numbers result ≡ becomes free (number_of outcome) }
    {
        Step {
            place: Place::free(),
            outcome,
        }
    }
}

impl Place {
    /// The place of zeros.
    #[inline]
    pub fn free() -> Place
        ensures { result ≡ free }
    {
        Place::default()
    }

    /// The place's numbers as one, which is 0 exactly where the place is all zero.
    #[inline]
    #[tactic(auto, using(crate::proofs::Answers::as_one))]
    pub fn weight(self) -> u64
        ensures result_value { eqb result 0 ≡ is_zero self }
        ensures value { result ≡ weight self }
    {
        let low = u64::from(self.serial) + u64::from(self.mode) * 65536;
        let high = u64::from(self.resends) + u64::from(self.age) * 65536;
        low + high * 4294967296
    }

    /// A denial: sent again while fewer than `resends` were made, else failed and freed.
    #[inline]
    #[tactic(auto, unfolding(crate::specs::Steps::denied))]
    pub fn denied(self, resends: u8) -> Step
        ensures { in_numbers result ≡ denied resends self }
    {
        if self.resends < u16::from(resends) {
            Step {
                place: Place {
                    resends: self.resends + 1,
                    age: 0,
                    ..self
                },
                outcome: Outcome::Resent,
            }
        } else {
            Step::ended(Outcome::Failed)
        }
    }

    /// What a reply that fits makes of the place.
    #[inline]
    #[tactic(auto, unfolding(crate::specs::Steps::replied))]
    pub fn replied(self, reply: Reply, resends: u8) -> Step
        ensures { in_numbers result ≡ replied resends reply self }
    {
        match reply {
            Reply::Confirm => Step::ended(Outcome::Confirmed),
            Reply::Answer => Step::ended(Outcome::Answered),
            Reply::Deny | Reply::BadAnswer => self.denied(resends),
        }
    }
}
