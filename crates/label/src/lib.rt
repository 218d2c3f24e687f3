//! The time label: six bytes by value, and the judgement of one.
#![tactic(auto)]

ghost use Rattle.std.specs.Prelude.{◌≡◌, ◌&&◌, eqb, drop};
ghost use Rattle.label.specs.Times.{label_of, label_bytes, ranges, in_ranges, is_no_time, judged, allowed, time_of, number_shown, shown_as};

/// A time label, as its six bytes stand in a packet.
#[repr(C)]
#[derive(Clone, Copy, Debug, Default, PartialEq, Eq, Hash)]
pub struct Label {
    pub second: u8,
    pub minute: u8,
    pub hour: u8,
    pub day: u8,
    pub month: u8,
    pub year: u8,
}

/// What a label is judged to be.
#[derive(Clone, Copy, Debug, PartialEq, Eq, Hash)]
pub enum Judgement {
    Time,
    NoTime,
    Bad,
}

/// What a reading shows of a label beside its six bytes.
#[derive(Clone, Copy, Debug, PartialEq, Eq, Hash)]
pub enum Shown {
    Nothing = 0,
    Time = 1,
    NoTime = 2,
    NoLabel = 3,
}

impl Shown {
    /// The number that C sees.
    #[inline]
    pub fn number(self) -> u8
        ensures { result ≡ number_shown self }
    {
        self as u8
    }
}

impl From<[u8; 6]> for Label {
    ghost from_gives = { λ bytes label. label ≡ label_of bytes };

    #[inline]
    fn from(bytes: [u8; 6]) -> Label {
        let [second, minute, hour, day, month, year] = bytes;
        Label {
            second,
            minute,
            hour,
            day,
            month,
            year,
        }
    }
}

impl From<Label> for [u8; 6] {
    ghost from_gives = { λ label bytes. bytes ≡ label_bytes label };

    #[inline]
    fn from(label: Label) -> [u8; 6] {
        [
            label.second,
            label.minute,
            label.hour,
            label.day,
            label.month,
            label.year,
        ]
    }
}

impl Label {
    /// The label that stands from a place on; what is missing behind the end reads 0.
    pub fn read_at(s: &[u8], at: usize) -> Label
        ensures { result ≡ label_of (drop at s.now) }
    {
        Label::from(octets::six_at(s, at))
    }

    pub fn bytes(self) -> [u8; 6]
        ensures { result ≡ label_bytes self }
    {
        <[u8; 6]>::from(self)
    }

    /// The judgement of the label.
    #[inline]
    #[tactic(auto, unfolding(crate::specs::Times::judged))]
    pub fn judge(self) -> Judgement
        ensures { result ≡ judged self }
    {
        if self.is_in_range() {
            Judgement::Time
        } else if self.is_zero() {
            Judgement::NoTime
        } else {
            Judgement::Bad
        }
    }

    /// Whether each byte lies in its own range. Day and month are asked first: the compiler then begins with one test of the last four bytes,
    /// and in most other orders tests each byte by itself.
    #[inline]
    #[tactic(auto, unfolding(crate::specs::Times::in_ranges))]
    fn is_in_range(self) -> bool
        ensures { result ≡ in_ranges ranges (label_bytes self) }
    {
        matches!(self.day, 1..=31)
            && matches!(self.month, 1..=12)
            && matches!(self.hour, 0..=23)
            && matches!(self.year, 0..=99)
            && matches!(self.second, 0..=59)
            && matches!(self.minute, 0..=59)
    }

    /// Whether the label is six zeros.
    #[inline]
    #[tactic(auto, using(crate::proofs::Ranges::zero_by_value))]
    fn is_zero(self) -> bool
        ensures { result ≡ is_no_time self }
    {
        let bytes = self.bytes();
        are_zero(octets::four_at(&bytes, 0), octets::two_at(&bytes, 4))
    }

    /// Whether the label may stand: what TIME asks.
    #[inline]
    pub fn is_allowed(self) -> bool
        ensures { result ≡ allowed (judged self) }
    {
        self.judge() != Judgement::Bad
    }

    /// The same of the first six bytes, which are read again where they are no time: in a loop over labels a time then costs no more.
    #[inline]
    #[tactic(auto, using(crate::proofs::Judging::standing))]
    pub fn stands_in(s: &[u8]) -> bool
        ensures { result ≡ allowed (judged (label_of s.now)) }
    {
        Label::read_at(s, 0).is_in_range() || are_zero(octets::four_at(s, 0), octets::two_at(s, 4))
    }

    /// What a reading shows of a label that may stand: a time has a day.
    #[inline]
    #[tactic(auto, unfolding(crate::specs::Times::time_of))]
    pub fn shown(self) -> Shown
        ensures { number_shown result ≡ shown_as (time_of self) }
    {
        if self.day == 0 {
            Shown::NoTime
        } else {
            Shown::Time
        }
    }
}

/// Whether six bytes, as two numbers, are zero.
#[inline]
fn are_zero(low: u32, high: u16) -> bool
    ensures { result ≡ (eqb low 0 && eqb high 0) }
{
    low == 0 && high == 0
}
