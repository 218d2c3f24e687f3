//! What is said of a device table.
ghost use Rattle.std.specs.Prelude.{◌≡◌, ◌≤◌, ◌<◌, ◌++◌, cond, [], eqb, length, take};
ghost use Rattle.naming.specs.Names.{ascii};
ghost use Rattle.devices.specs.Sections.{count_at, end_of, by_limit, section_tests};
ghost use Rattle.devices.specs.Tables.{of_systems, of_parts, earlier_parts, parts_from};
ghost use Rattle.verdict.specs.Orders.{in_order, good, is_good, refusal};
ghost use Rattle.verdict.specs.Refusals.{number_of};
ghost use Rattle.lines.specs.Tables.{counted, good_said, earlier_said, section_said, sections_said, led, own_number, newline_said, refused_said, file_name, unjudged_said};
ghost use Rattle.lines.specs.Texts.{noun_said, entry_said, fault_said};

use crate::Why;
use crate::row::{Line, Text};
use devices::{PARTS, SYSTEMS, Section};
use verdict::{Refusal, Refused};

/// The most bytes that a path has.
const PATH_MOST: usize = 4095;

/// What is counted.
#[derive(Clone, Copy, Debug, PartialEq, Eq, Hash)]
pub(crate) enum Noun {
    System,
    Part,
    Byte,
}

/// So many of a thing: 1 system, 4 systems.
#[derive(Clone, Copy, Debug, PartialEq, Eq, Hash)]
struct Counted {
    count: usize,
    noun: Noun,
}

/// What a good table holds.
#[derive(Clone, Copy, Debug, PartialEq, Eq, Hash)]
pub(crate) struct Good {
    pub systems: usize,
    pub parts: usize,
    pub bytes: usize,
}

/// An entry that is refused: its place among all entries, and its own number.
#[derive(Clone, Copy, Debug, PartialEq, Eq, Hash)]
pub(crate) struct Entry {
    place: usize,
    noun: Noun,
    number: usize,
}

/// What is wrong with a refused table.
#[derive(Clone, Copy, Debug, PartialEq, Eq, Hash)]
pub(crate) enum Fault {
    CountCut {
        noun: Noun,
        left: usize,
    },
    Many {
        noun: Noun,
        count: usize,
        limit: usize,
    },
    Cut {
        noun: Noun,
        whole: usize,
        count: usize,
    },
    Order(Entry),
    Orphan(Entry),
    Tail {
        rest: usize,
        last: u8,
    },
}

/// A file's name, of at most 4,095 bytes, and what parts it from the rest of the line.
#[derive(Clone, Copy)]
pub(crate) struct FileName<'a>(pub &'a [u8]);

impl Noun {
    fn name(self) -> &'static str
        ensures value { result.now ≡ noun_said self }
        ensures short { length result.now ≤ 6 }
    {
        match self {
            Noun::System => "system",
            Noun::Part => "part",
            Noun::Byte => "byte",
        }
    }
}

impl<const N: usize> Text<N> for Noun {
    ghost text = { noun_said };

    ghost most = { λ _. 6 };

    fn put(self, line: &mut Line<N>) {
        self.name().put(line);
    }
}

impl<const N: usize> Text<N> for Counted {
    ghost text = { λ c. counted [] c.count (noun_said c.noun) };

    ghost most = { λ _. 28 };

    #[tactic(auto, unfolding(crate::specs::Tables::counted, crate::specs::Tables::led))]
    fn put(self, line: &mut Line<N>) {
        (self.count, " ", self.noun, plural(self.count)).put(line);
    }
}

/// What stands behind a noun.
fn plural(count: usize) -> &'static str
    ensures value { result.now ≡ cond (eqb count 1) [] (ascii "s") }
    ensures short { length result.now ≤ 1 }
{
    if count == 1 { "" } else { "s" }
}

impl<const N: usize> Text<N> for Good {
    ghost text = { λ t. good_said t.systems t.parts t.bytes ++ earlier_said (by_limit earlier_parts.limit t.parts) };

    ghost most = { λ _. 180 };

    #[tactic(auto, unfolding(crate::specs::Tables::good_said, crate::specs::Tables::counted, crate::specs::Tables::led))]
    fn put(self, line: &mut Line<N>) {
        let systems = Counted {
            count: self.systems,
            noun: Noun::System,
        };
        let parts = Counted {
            count: self.parts,
            noun: Noun::Part,
        };
        let bytes = Counted {
            count: self.bytes,
            noun: Noun::Byte,
        };
        let held = (" ", systems, ", ", parts, ", ", bytes);
        (held, earlier(self.parts)).put(line);
    }
}

/// What an earlier program, which reads fewer parts, says of a good table of so many.
#[tactic(auto, using(crate::proofs::Saying::read_by_earlier, crate::proofs::Saying::refused_by_earlier))]
fn earlier(parts: usize) -> &'static str
    ensures value { result.now ≡ earlier_said (by_limit earlier_parts.limit parts) }
    ensures short { length result.now ≤ 81 }
{
    if parts <= devices::EARLIER_MOST {
        ""
    } else {
        "; releases before 1.8 refuse it as MANY: replace it before going back to one"
    }
}

impl<const N: usize> Text<N> for Entry {
    ghost text = { entry_said };

    ghost most = { λ _. 50 };

    #[tactic(auto, unfolding(crate::specs::Tables::led))]
    fn put(self, line: &mut Line<N>) {
        ((" ", self.place, ": "), (self.noun, " ", self.number)).put(line);
    }
}

impl<const N: usize> Text<N> for Fault {
    ghost text = { fault_said };

    ghost most = { λ _. 90 };

    #[tactic(auto, unfolding(crate::specs::Tables::led, crate::specs::Tables::counted, crate::specs::Tables::of_said, crate::specs::Tables::count_cut_said, crate::specs::Tables::many_said, crate::specs::Tables::cut_said, crate::specs::Tables::why_said, crate::specs::Tables::tail_said, crate::specs::Decimal::decimal, crate::specs::Decimal::decimal_in))]
    fn put(self, line: &mut Line<N>) {
        match self {
            Fault::CountCut { noun, left } => {
                (": ", left, " of 2 bytes of the number of ", (noun, "s")).put(line)
            }
            Fault::Many { noun, count, limit } => {
                (": ", Counted { count, noun }, ", at most ", limit).put(line)
            }
            Fault::Cut { noun, whole, count } => {
                (": ", whole, " of ", count, (" ", noun), "s are whole").put(line)
            }
            Fault::Order(entry) => (entry, " is not above the one before").put(line),
            Fault::Orphan(entry) => (entry, " is of a system that is not listed").put(line),
            Fault::Tail { rest, last } => {
                let rest_said = Counted {
                    count: rest,
                    noun: Noun::Byte,
                };
                (": ", rest_said, " after the table", newline(rest, last)).put(line)
            }
        }
    }
}

/// Whether the last byte behind a table is a newline.
#[tactic(auto, unfolding(crate::specs::Tables::newline_said))]
fn newline(rest: usize, last: u8) -> &'static str
    ensures value { result.now ≡ newline_said rest last }
    ensures short { length result.now ≤ 22 }
{
    match (last, rest) {
        (b'\n', 1) => ", a newline",
        (b'\n', _) => ", a newline at the end",
        _ => "",
    }
}

/// What is wrong with a table for which this is its judge's refusal.
#[tactic(auto, using(crate::proofs::Saying::order_said, crate::proofs::Saying::orphan_said, crate::proofs::Saying::rest_said, crate::proofs::Saying::section_refused))]
pub(crate) fn fault_of(table: &[u8], refused: Refused) -> Fault
    ensures { fault_said result ≡ refused_said of_systems of_parts table.now (refusal (number_of refused.refusal) refused.place) }
{
    match refused.refusal {
        Refusal::Order => Fault::Order(entry_at(table, refused.place)),
        Refusal::Orphan => Fault::Orphan(entry_at(table, refused.place)),
        Refusal::Tail => Fault::Tail {
            rest: rows::less(table.len(), table_end(table)),
            last: octets::byte_at(table, rows::less(table.len(), 1)),
        },
        _ => sections_fault(table),
    }
}

/// The entry at a place: the parts are numbered on after the systems.
#[tactic(auto, using(crate::proofs::Saying::systems_told), unfolding(crate::specs::Tables::led, crate::specs::Tables::own_number))]
fn entry_at(table: &[u8], place: usize) -> Entry
    ensures { entry_said result ≡ led (ascii " ") place ++ ascii ": " ++ own_number (count_at table.now 0) place }
{
    let systems = usize::from(octets::two_at(table, 0));
    if place < systems {
        return Entry {
            place,
            noun: Noun::System,
            number: place,
        };
    }
    Entry {
        place,
        noun: Noun::Part,
        number: place - systems,
    }
}

/// The first section of which a test fails: the systems' stands before the parts'.
#[tactic(auto, using(crate::proofs::Saying::parts_fail, crate::proofs::Saying::systems_fail))]
fn sections_fault(table: &[u8]) -> Fault
    ensures { fault_said result ≡ ascii ": " ++ sections_said of_systems of_parts table.now }
{
    if systems_hold(table) {
        return section_fault(Noun::Part, PARTS, table, parts_from(table));
    }
    section_fault(Noun::System, SYSTEMS, table, 0)
}

/// What the first test that fails of a section is about.
#[tactic(auto, using(crate::proofs::Saying::count_cut, crate::proofs::Saying::too_many, crate::proofs::Saying::cut_short))]
fn section_fault(noun: Noun, section: Section, table: &[u8], from: usize) -> Fault
    requires entry_nonzero { 0 < section.entry }
    requires from_bound { from ≤ 1000000 }
    ensures { fault_said result ≡ ascii ": " ++ section_said (noun_said noun) section table.now from }
{
    if table.len() < from + 2 {
        let left = rows::less(table.len(), from);
        return Fault::CountCut { noun, left };
    }
    let count = usize::from(octets::two_at(table, from));
    if section.limit < count {
        return Fault::Many {
            noun,
            count,
            limit: section.limit,
        };
    }
    Fault::Cut {
        noun,
        whole: (table.len() - (from + 2)) / section.entry,
        count,
    }
}

/// Whether the tests of the systems' section hold.
#[tactic(auto, using(crate::proofs::Saying::no_count, crate::proofs::Saying::past_limit, crate::proofs::Saying::to_the_end))]
fn systems_hold(table: &[u8]) -> bool
    ensures { result ≡ is_good (in_order (section_tests of_systems table.now 0) good) }
{
    let count = usize::from(octets::two_at(table, 0));
    2 <= table.len() && count <= SYSTEMS.limit && 2 + count * SYSTEMS.entry <= table.len()
}

/// Where the parts begin, by the number of systems that is told.
#[tactic(auto, using(crate::proofs::Saying::parts_read))]
fn parts_from(table: &[u8]) -> usize
    ensures value { result ≡ parts_from of_systems table.now }
    ensures upper_bound { result ≤ 131072 }
{
    2 + usize::from(octets::two_at(table, 0)) * SYSTEMS.entry
}

/// Where the table ends, by the numbers that are told.
#[tactic(auto, using(crate::proofs::Saying::end_read))]
fn table_end(table: &[u8]) -> usize
    ensures { result ≡ end_of of_parts table.now (parts_from of_systems table.now) }
{
    let from = parts_from(table);
    from + 2 + usize::from(octets::two_at(table, from)) * PARTS.entry
}

impl<const N: usize> Text<N> for FileName<'_> {
    ghost text = { λ name. file_name name.0.now };

    ghost most = { λ _. 4097 };

    #[tactic(auto, unfolding(crate::specs::Tables::file_name))]
    fn put(self, line: &mut Line<N>) {
        (front(self.0, PATH_MOST), ": ").put(line);
    }
}

/// At most so many bytes from the front.
#[tactic(auto, using(std::proofs::lemmas::List::take_all))]
fn front(bytes: &[u8], most: usize) -> &[u8]
    ensures value { result.now ≡ take most bytes.now }
    ensures short { length result.now ≤ most }
{
    if bytes.len() <= most {
        bytes
    } else {
        &bytes[..most]
    }
}

impl<const N: usize> Text<N> for Why {
    ghost text = { unjudged_said };

    ghost most = { λ _. 23 };

    #[tactic(auto, unfolding(crate::specs::Tables::unjudged_said))]
    fn put(self, line: &mut Line<N>) {
        match self {
            Why::Absent => "no such file".put(line),
            Why::Folder => "is a directory".put(line),
            Why::Barred => "may not be read".put(line),
            Why::Broken => "cannot be read".put(line),
            Why::Longer => "longer than 65536 bytes".put(line),
        }
    }
}
