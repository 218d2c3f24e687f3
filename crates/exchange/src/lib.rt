//! The exchange table: beginning an exchange and writing its packet, a reply to one, and the tick.
#![tactic(auto)]

ghost use Rattle.std.specs.Prelude.{◌≡◌, cond, ◌+◌, ◌*◌, ◌≤◌, ◌<◌, IfOk};
ghost use Rattle.kinds.specs.Table.{rows};
ghost use Rattle.place.specs.Modes.{number_of};
ghost use Rattle.place.specs.Rules.{is_open};
ghost use Rattle.verdict.specs.Orders.{refusal};
ghost use Rattle.verdict.specs.Refusals.{STATE, number_of as refusal_number};
ghost use Rattle.exchange.specs.Addresses.{same_address, equal, partly_equal};
ghost use Rattle.exchange.specs.Table.{settled, centre_of, centre_at, address_at, next_at, made, blank, found, found_as, no_opening, no_fitting, entered, placed, answered, untold, unticked, ticking};
ghost use Rattle.exchange.specs.Begins.{headed_by, mode_of, unbegun, begun, begun_output};

use label::Label;
use packet::Header;
use place::{Mode, Outcome, Place, Reply};
use places::{Report, Unfound};
use verdict::{Refusal, Refused, Verdict, ensure};

/// The address of a monitoring centre.
#[repr(C)]
#[derive(Clone, Copy, Debug)]
pub struct Address {
    pub bytes: [u8; 6],
}

/// A monitoring centre: its address, and the serial to try first for it.
#[repr(C)]
#[derive(Clone, Copy, Debug, PartialEq, Eq)]
pub struct Centre {
    pub address: Address,
    pub next: u16,
}

/// The sixteen places, eight for each centre, the two centres, and the two settings.
#[repr(C)]
#[derive(Clone, Copy, Debug, PartialEq, Eq)]
pub struct Exchanges {
    pub places: [Place; 16],
    pub centres: [Centre; 2],
    pub timeout: u8,
    pub resends: u8,
}

/// What the header of a packet needs but its serial and its destination, which the table gives.
#[repr(C)]
#[derive(Clone, Copy)]
pub struct Draft {
    pub version: u8,
    pub label: Label,
    pub source: [u8; 6],
    pub command: u8,
}

/// A fresh table.
#[repr(C)]
#[derive(Clone, Copy, Debug, PartialEq, Eq)]
pub struct Made {
    pub verdict: Verdict,
    pub state: Exchanges,
}

/// A reply before its step: the number of its refusal, 0 for none, and the place that it fits.
// Two numbers, which come back in registers: a Result of a place comes through memory.
#[derive(Clone, Copy)]
struct Reached {
    number: u8,
    place: usize,
}

/// The place that was opened, the length of the packet that was written, and its serial.
#[repr(C)]
#[derive(Clone, Copy, Debug, PartialEq, Eq)]
pub struct Begun {
    pub verdict: Verdict,
    pub place: usize,
    pub length: usize,
    pub serial: u16,
    pub state: Exchanges,
}

/// The place that a reply fitted and what is told of it; the outcome is as wide as the numbers of the table behind it, so that no byte between them is padding.
#[repr(C)]
#[derive(Clone, Copy, Debug, PartialEq, Eq)]
pub struct Replied {
    pub verdict: Verdict,
    pub place: usize,
    pub outcome: u16,
    pub state: Exchanges,
}

/// What a tick tells of all sixteen places.
#[repr(C)]
#[derive(Clone, Copy, Debug, PartialEq, Eq)]
pub struct Ticked {
    pub verdict: Verdict,
    pub reports: [Report; 16],
    pub state: Exchanges,
}

impl Exchanges {
    /// The number of centres.
    pub const CENTRES: usize = 2;

    /// The most ticks of a timeout.
    pub const LONGEST: u8 = 10;

    /// The most resends.
    pub const MOST: u8 = 9;

    /// A fresh table; SETTING, with a table of zeros, where a limit is passed or the addresses are equal.
    pub fn fresh(timeout: u8, resends: u8, first: Address, second: Address) -> Made
        ensures { result ≡ made timeout resends first.bytes second.bytes }
    {
        let settled = is_settled(timeout, resends, first, second);
        let nowhere = Address { bytes: [0; 6] };
        Made {
            verdict: ensure(settled, Refusal::Setting).into(),
            state: if settled {
                blank(timeout, resends, first, second)
            } else {
                blank(0, 0, nowhere, nowhere)
            },
        }
    }

    /// Writes a packet to a centre around the unit that stands from byte 28 of the output, and only then opens the place for it.
    pub fn begin_and_write(self, centre: u8, out: &mut [u8], draft: Draft, length: usize) -> Begun
        ensures value { result ≡ begun rows self centre out.old draft length }
        ensures out_after { out.new ≡ begun_output rows self centre out.old draft length }
    {
        let named = usize::from(centre);
        let found = self.find(named);
        let Ok((place, serial)) = found else {
            return self.unbegun(found.into());
        };
        let own = self.centre(named);
        let destination = own.address;
        let header = draft.header(destination, serial, opening_by(draft.command));
        if let Err(refused) = output::write(out, header, length) {
            return self.unbegun(refused.into());
        }
        Begun {
            verdict: Verdict::good(),
            place,
            length: 30 + length,
            serial,
            state: self.enter(named, place, serial, mode_of(draft.command)),
        }
    }

    /// The step of the exchange that a reply fits, of the centre that has its source address, STRAY where it fits none.
    // The search is a call and the step in each export; one way out, so that the table is copied once.
    #[inline(always)]
    pub fn reply(self, source: Address, serial: u16, reply: Reply) -> Replied
        ensures { result ≡ answered self source.bytes serial reply }
    {
        let reached = self.reach(source, serial, reply);
        let mut places = self.places;
        let mut outcome = u16::from(Outcome::Nothing.number());
        if reached.number == 0 {
            let step = places[reached.place].replied(reply, self.resends);
            places[reached.place] = step.place;
            outcome = u16::from(step.outcome.number());
        }
        Replied {
            verdict: Verdict {
                number: reached.number,
                place: 0,
            },
            place: reached.place,
            outcome,
            state: self.with(places),
        }
    }

    /// Nothing told under a verdict, and the table as it came.
    #[inline(always)]
    pub fn untold(self, verdict: Verdict) -> Replied
        ensures { result ≡ untold self verdict }
    {
        Replied {
            verdict,
            place: 0,
            outcome: u16::from(Outcome::Nothing.number()),
            state: self,
        }
    }

    /// The step of every place, each with its report.
    #[inline(always)]
    pub fn tick(self) -> Ticked
        ensures { result ≡ ticking self }
    {
        if !self.is_settled() {
            return self.unticked();
        }
        let Some(swept) = places::tick_all(self.places, self.timeout, self.resends) else {
            return self.unticked();
        };
        let places = swept.places;
        let reports = swept.reports;
        Ticked {
            verdict: Verdict::good(),
            reports,
            state: self.with(places),
        }
    }

    /// A tick that was refused.
    #[inline(always)]
    fn unticked(self) -> Ticked
        ensures { result ≡ unticked self (refusal STATE 0) }
    {
        Ticked {
            verdict: Verdict::from(Refusal::State.at(0)),
            reports: [Report::default(); 16],
            state: self,
        }
    }

    /// The table with other places.
    // The centres one by one, so that the compiler keeps them apart from the places.
    #[inline(always)]
    fn with(self, places: [Place; 16]) -> Exchanges
        ensures { result ≡ placed self places }
    {
        let first = self.centres[0];
        let second = self.centres[1];
        Exchanges {
            places,
            centres: [first, second],
            ..self
        }
    }

    /// Whether settings and addresses keep the state's rules.
    #[inline(always)]
    fn is_settled(self) -> bool
        ensures { result ≡ settled self.timeout self.resends (address_at self 0) (address_at self 1) }
    {
        let first = self.centres[0];
        let second = self.centres[1];
        is_settled(self.timeout, self.resends, first.address, second.address)
    }

    /// A centre by its number.
    // Copied whole, so that the compiler keeps the table's centres apart from its places.
    #[inline(always)]
    fn centre(self, centre: usize) -> Centre
        requires { centre < 2 }
        ensures { result ≡ centre_at self centre }
    {
        let centres = self.centres;
        centres[centre]
    }

    /// The place and serial that a beginning for a centre would take.
    #[inline(always)]
    fn find(self, centre: usize) -> Result<(usize, u16), Refused>
        ensures value { found_as result ≡ found self centre }
        ensures inside { IfOk result (λ at. (centre < 2) × (at.0 < 16)) }
    {
        ensure(self.is_settled(), Refusal::State)?;
        let next = self.next_of(centre);
        places::find_opening(self.places, centre, self.timeout, self.resends, next).map_err(
            no_opening,
        )
    }

    /// The serial to try first for a centre, which is asked only where there is such a centre.
    #[inline(always)]
    fn next_of(self, centre: usize) -> u16
        ensures { centre < 2 → result ≡ next_at self centre }
    {
        if centre < Exchanges::CENTRES {
            let own = self.centre(centre);
            own.next
        } else {
            0
        }
    }

    /// The table with an exchange entered at a place of a centre.
    #[inline(always)]
    fn enter(self, centre: usize, place: usize, serial: u16, mode: Mode) -> Exchanges
        requires centre_bound { centre < 2 }
        requires place_bound { place < 16 }
        ensures { result ≡ entered self centre place serial (number_of mode) }
    {
        let mut places = self.places;
        places[place] = Place {
            serial,
            mode: mode.number(),
            ..Place::free()
        };
        let mut centres = self.centres;
        let own = self.centre(centre);
        centres[centre] = Centre {
            next: places::after(serial),
            ..own
        };
        Exchanges {
            places,
            centres,
            ..self
        }
    }

    /// A beginning that was refused.
    #[inline(always)]
    fn unbegun(self, verdict: Verdict) -> Begun
        ensures { result ≡ unbegun self verdict }
    {
        Begun {
            verdict,
            place: 0,
            length: 0,
            serial: 0,
            state: self,
        }
    }

    /// The place that a reply fits, or why it fits none.
    #[inline(never)]
    fn reach(self, source: Address, serial: u16, reply: Reply) -> Reached
        ensures number { result.number ≡ (answered self source.bytes serial reply).verdict.number }
        ensures place { result.place ≡ (answered self source.bytes serial reply).place }
        ensures inside { result.place < 16 }
    {
        if !self.is_settled() {
            return unreached(Refusal::State.at(0));
        }
        let centre = self.centre_of(source);
        let fitting = places::find_fitting(
            self.places,
            centre,
            self.timeout,
            self.resends,
            serial,
            reply,
        );
        match fitting {
            Ok((place, _)) => Reached { number: 0, place },
            Err(unfound) => unreached(no_fitting(unfound)),
        }
    }

    /// The centre that has an address, 2 where neither has it.
    #[inline(always)]
    #[tactic(auto, using(crate::proofs::Calls::placing))]
    fn centre_of(self, address: Address) -> usize
        ensures { result ≡ centre_of self address.bytes }
    {
        let first = self.centres[0];
        let second = self.centres[1];
        if first.address == address {
            0
        } else if second.address == address {
            1
        } else {
            Exchanges::CENTRES
        }
    }
}

// By their numbers, and not derived: six tests of bytes made replies 7 to 18 in a hundred dearer, and a tick of an empty table 390 for 317.
impl PartialEq for Address {
    ghost eq = { same_address };

    ghost laws = { partly_equal };

    fn eq(&self, other: &Address) -> bool {
        octets::same_six(self.bytes, other.bytes)
    }
}

impl Eq for Address {
    ghost laws = { equal };
}

impl Draft {
    /// The header under a destination, a serial and a command.
    fn header(self, to: Address, serial: u16, command: u8) -> Header
        ensures { result ≡ headed_by self to.bytes serial command }
    {
        let source = self.source;
        let destination = to.bytes;
        Header {
            serial,
            version: self.version,
            label: self.label,
            source,
            destination,
            command,
        }
    }
}

/// The mode that a command opens.
#[tactic(auto, unfolding(crate::specs::Begins::mode_of))]
fn mode_of(command: u8) -> Mode
    ensures { number_of result ≡ mode_of command }
{
    match command {
        1 | 2 => Mode::Send,
        4 => Mode::Request,
        _ => Mode::Free,
    }
}

/// A command that opens an exchange, and 0 for any other: the packet writer refuses that as COMMAND, in its own order.
fn opening_by(command: u8) -> u8
    ensures { result ≡ cond (is_open (mode_of command)) command 0 }
{
    if place::is_open(mode_of(command).number()) {
        command
    } else {
        0
    }
}

/// Why a beginning finds no place.
#[inline]
fn no_opening(unfound: Unfound) -> Refused
    ensures { result ≡ no_opening unfound }
{
    match unfound {
        Unfound::Broken => Refusal::State.at(0),
        Unfound::Outside => Refusal::Centre.at(0),
        Unfound::Nothing => Refusal::Full.at(0),
    }
}

/// Why a reply fits no place.
#[inline]
fn no_fitting(unfound: Unfound) -> Refused
    ensures { result ≡ no_fitting unfound }
{
    match unfound {
        Unfound::Broken => Refusal::State.at(0),
        Unfound::Outside | Unfound::Nothing => Refusal::Stray.at(0),
    }
}

/// A reply that reaches no place.
#[inline]
fn unreached(refused: Refused) -> Reached
    ensures { result ≡ record { number = refusal_number refused.refusal; place = 0 } }
{
    Reached {
        number: refused.refusal.number(),
        place: 0,
    }
}

/// A table with no exchange open.
fn blank(timeout: u8, resends: u8, first: Address, second: Address) -> Exchanges
    ensures { result ≡ blank timeout resends first.bytes second.bytes }
{
    Exchanges {
        places: [Place::free(); 16],
        centres: [
            Centre {
                address: first,
                next: 0,
            },
            Centre {
                address: second,
                next: 0,
            },
        ],
        timeout,
        resends,
    }
}

/// Whether the settings are in range and the addresses differ.
fn is_settled(timeout: u8, resends: u8, first: Address, second: Address) -> bool
    ensures { result ≡ settled timeout resends first.bytes second.bytes }
{
    (1..=Exchanges::LONGEST).contains(&timeout) && resends <= Exchanges::MOST && first != second
}
