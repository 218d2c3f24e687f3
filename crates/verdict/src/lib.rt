//! A verdict, the refusals by name and number, and what every judge answers.
#![tactic(auto)]

ghost use Rattle.std.specs.Prelude.{◌≡◌, cond, Ok, Err, Some};
ghost use Rattle.verdict.specs.Refusals.{numbers, number_of, name_of, Decodes};
ghost use Rattle.verdict.specs.Orders.{good, refusal, is_good, refused_at, told, placed};

use std::error::Error;
use std::fmt;
use std::ops::Range;

/// Why something is refused, under document 01's numbers and document 02's.
#[derive(Clone, Copy, Debug, PartialEq, Eq, Hash)]
pub enum Refusal {
    State = 1,
    Room = 2,
    Cut = 3,
    Start = 4,
    Length = 5,
    End = 6,
    Sum = 7,
    Version = 8,
    Command = 9,
    Time = 10,
    Unit = 11,
    Type = 12,
    Count = 13,
    Short = 14,
    Number = 15,
    Kind = 16,
    Text = 17,
    Setting = 18,
    Full = 19,
    Stray = 20,
    Many = 21,
    Order = 22,
    Orphan = 23,
    Tail = 24,
    Unlisted = 25,
    Long = 28,
    Centre = 30,
}

/// A refusal and its place, 0 where none is named.
#[derive(Clone, Copy, Debug, PartialEq, Eq, Hash)]
pub struct Refused {
    pub refusal: Refusal,
    pub place: usize,
}

/// A number that no refusal has.
#[derive(Clone, Copy, Debug, PartialEq, Eq, Hash)]
pub struct UnknownRefusal(pub u8);

/// What C sees of an answer: good is 0 and 0, a refusal its number and its place.
#[repr(C)]
#[derive(Clone, Copy, Debug, PartialEq, Eq, Hash)]
pub struct Verdict {
    pub number: u8,
    pub place: usize,
}

/// What C sees of a part of its own bytes: a verdict, and from where to where, 0 and 0 where it is refused.
#[repr(C)]
#[derive(Clone, Copy, Debug, PartialEq, Eq, Hash)]
pub struct Part {
    pub verdict: Verdict,
    pub from: usize,
    pub to: usize,
}

impl Refusal {
    /// The number that C sees.
    #[inline]
    pub fn number(self) -> u8
        ensures { result ≡ number_of self }
    {
        self as u8
    }

    /// The name that the programs print.
    pub fn name(self) -> &'static str
        ensures { result.now ≡ name_of self }
    {
        match self {
            Refusal::State => "STATE",
            Refusal::Room => "ROOM",
            Refusal::Cut => "CUT",
            Refusal::Start => "START",
            Refusal::Length => "LENGTH",
            Refusal::End => "END",
            Refusal::Sum => "SUM",
            Refusal::Version => "VERSION",
            Refusal::Command => "COMMAND",
            Refusal::Time => "TIME",
            Refusal::Unit => "UNIT",
            Refusal::Type => "TYPE",
            Refusal::Count => "COUNT",
            Refusal::Short => "SHORT",
            Refusal::Number => "NUMBER",
            Refusal::Kind => "KIND",
            Refusal::Text => "TEXT",
            Refusal::Setting => "SETTING",
            Refusal::Full => "FULL",
            Refusal::Stray => "STRAY",
            Refusal::Many => "MANY",
            Refusal::Order => "ORDER",
            Refusal::Orphan => "ORPHAN",
            Refusal::Tail => "TAIL",
            Refusal::Unlisted => "UNLISTED",
            Refusal::Long => "LONG",
            Refusal::Centre => "CENTRE",
        }
    }

    /// This refusal, at a place.
    #[inline]
    pub fn at(self, place: usize) -> Refused
        ensures { result ≡ refused_at self place }
    {
        Refused {
            refusal: self,
            place,
        }
    }
}

impl TryFrom<u8> for Refusal {
    type Error = UnknownRefusal;

    ghost try_from_gives = { Decodes };

    fn try_from(number: u8) -> Result<Self, UnknownRefusal> {
        match number {
            1 => Ok(Refusal::State),
            2 => Ok(Refusal::Room),
            3 => Ok(Refusal::Cut),
            4 => Ok(Refusal::Start),
            5 => Ok(Refusal::Length),
            6 => Ok(Refusal::End),
            7 => Ok(Refusal::Sum),
            8 => Ok(Refusal::Version),
            9 => Ok(Refusal::Command),
            10 => Ok(Refusal::Time),
            11 => Ok(Refusal::Unit),
            12 => Ok(Refusal::Type),
            13 => Ok(Refusal::Count),
            14 => Ok(Refusal::Short),
            15 => Ok(Refusal::Number),
            16 => Ok(Refusal::Kind),
            17 => Ok(Refusal::Text),
            18 => Ok(Refusal::Setting),
            19 => Ok(Refusal::Full),
            20 => Ok(Refusal::Stray),
            21 => Ok(Refusal::Many),
            22 => Ok(Refusal::Order),
            23 => Ok(Refusal::Orphan),
            24 => Ok(Refusal::Tail),
            25 => Ok(Refusal::Unlisted),
            28 => Ok(Refusal::Long),
            30 => Ok(Refusal::Centre),
            _ => Err(UnknownRefusal(number)),
        }
    }
}

impl fmt::Display for Refusal {
    ghost output = { λ r. Some (name_of r) };

    fn fmt<W: fmt::Write>(&self, f: &mut fmt::Formatter<W>) -> fmt::Result {
        f.write_str(self.name())
    }
}

impl fmt::Display for Refused {
    fn fmt<W: fmt::Write>(&self, f: &mut fmt::Formatter<W>) -> fmt::Result {
        write!(f, "{} at {}", self.refusal, self.place)
    }
}

impl fmt::Display for UnknownRefusal {
    fn fmt<W: fmt::Write>(&self, f: &mut fmt::Formatter<W>) -> fmt::Result {
        write!(f, "no refusal has number {}", self.0)
    }
}

impl Error for Refused {}

impl Error for UnknownRefusal {}

impl From<Refusal> for Refused {
    ghost from_gives = { λ refusal refused. refused ≡ refused_at refusal 0 };

    #[inline]
    fn from(refusal: Refusal) -> Refused {
        refusal.at(0)
    }
}

impl From<Refused> for Verdict {
    ghost from_gives = { λ refused verdict. verdict ≡ refusal (number_of refused.refusal) refused.place };

    #[inline]
    fn from(refused: Refused) -> Verdict {
        Verdict {
            number: refused.refusal.number(),
            place: refused.place,
        }
    }
}

impl<T: Copy> From<Result<T, Refused>> for Verdict {
    ghost from_gives = { λ answer verdict. verdict ≡ told answer };

    #[inline]
    fn from(answer: Result<T, Refused>) -> Verdict {
        match answer {
            Ok(_) => Verdict::good(),
            Err(refused) => Verdict::from(refused),
        }
    }
}

impl From<Result<Range<usize>, Refused>> for Part {
    ghost from_gives = { λ answer part. part ≡ placed answer };

    #[inline]
    fn from(answer: Result<Range<usize>, Refused>) -> Part {
        match answer {
            Ok(place) => Part {
                verdict: Verdict::good(),
                from: place.start,
                to: place.end,
            },
            Err(refused) => Part {
                verdict: Verdict::from(refused),
                from: 0,
                to: 0,
            },
        }
    }
}

/// A test, and what is refused where it fails, at no place.
#[inline]
pub fn ensure(holds: bool, refusal: Refusal) -> Result<(), Refused>
    ensures { result ≡ cond holds (Ok tt) (Err (refused_at refusal 0)) }
{
    if holds { Ok(()) } else { Err(refusal.at(0)) }
}

impl Verdict {
    /// Nothing is refused.
    #[inline]
    pub fn good() -> Verdict
        ensures { result ≡ good }
    {
        Verdict {
            number: 0,
            place: 0,
        }
    }

    /// Whether nothing is refused.
    #[inline]
    pub fn is_good(self) -> bool
        ensures { result ≡ is_good self }
    {
        self.number == 0
    }
}

/// Every refusal's number, in the order of document 01's table, then document 02's.
pub fn all_numbers() -> [u8; 27]
    ensures { result ≡ numbers }
{
    [
        Refusal::State.number(),
        Refusal::Room.number(),
        Refusal::Cut.number(),
        Refusal::Start.number(),
        Refusal::Length.number(),
        Refusal::End.number(),
        Refusal::Sum.number(),
        Refusal::Version.number(),
        Refusal::Command.number(),
        Refusal::Time.number(),
        Refusal::Unit.number(),
        Refusal::Type.number(),
        Refusal::Count.number(),
        Refusal::Short.number(),
        Refusal::Number.number(),
        Refusal::Kind.number(),
        Refusal::Text.number(),
        Refusal::Setting.number(),
        Refusal::Full.number(),
        Refusal::Stray.number(),
        Refusal::Many.number(),
        Refusal::Order.number(),
        Refusal::Orphan.number(),
        Refusal::Tail.number(),
        Refusal::Unlisted.number(),
        Refusal::Long.number(),
        Refusal::Centre.number(),
    ]
}
