//! The judge of a device table, and a part's description found in it.
#![tactic(auto)]

mod entries;
mod table;

ghost use Rattle.std.specs.Prelude.{◌≡◌, ◌≤◌};
ghost use Rattle.verdict.specs.Orders.{in_order, good, told, placed, part_in, place_in};
ghost use Rattle.devices.specs.Tables.{of_systems, of_parts, judgement, found_place, key_bytes, counted};

use std::ops::Range;
use table::Table;
use verdict::{Refusal, Refused, Verdict};

/// How many entries a section may have, the bytes of an entry, and how many of them, from its first on, are its key.
#[derive(Clone, Copy, Debug, PartialEq, Eq, Hash)]
pub struct Section {
    pub limit: usize,
    pub entry: usize,
    pub key: usize,
}

/// "systems (at most 64; type, address)".
pub const SYSTEMS: Section = Section {
    limit: 64,
    entry: 2,
    key: 2,
};

/// "parts (.. the 38 bytes of a type 7 body)", and "Raise the limit to 1,600 parts".
pub const PARTS: Section = Section {
    limit: 1600,
    entry: 38,
    key: 7,
};

/// "a table of 1,024 parts or fewer .. the earlier program reads it": the limit in releases before 1.8.
pub const EARLIER_MOST: usize = 1024;

/// How many systems and parts a good table has.
#[derive(Clone, Copy, Debug, Default, PartialEq, Eq, Hash)]
pub struct Counts {
    pub systems: usize,
    pub parts: usize,
}

/// What C sees of a judgement: a table's verdict, and where it is good the numbers of its systems and parts.
#[repr(C)]
#[derive(Clone, Copy, Debug, PartialEq, Eq, Hash)]
pub struct Judgement {
    pub verdict: Verdict,
    pub systems: usize,
    pub parts: usize,
}

/// What a part is found by: its system's type and address, its own type and address.
#[repr(C)]
#[derive(Clone, Copy, Debug, PartialEq, Eq, Hash)]
pub struct PartKey {
    pub system: u8,
    pub address: u8,
    pub part: u8,
    pub part_address: u32,
}

impl From<PartKey> for [u8; 7] {
    ghost from_gives = { λ key bytes. bytes ≡ key_bytes key };

    /// The seven bytes as they stand in an entry.
    fn from(key: PartKey) -> [u8; 7] {
        let [a, b, c, d] = octets::four_bytes(key.part_address);
        [key.system, key.address, key.part, a, b, c, d]
    }
}

impl From<Result<Counts, Refused>> for Judgement {
    ghost from_gives = { λ answer judgement. judgement ≡ counted answer };

    fn from(answer: Result<Counts, Refused>) -> Judgement {
        let counts = answer.unwrap_or_default();
        Judgement {
            verdict: answer.into(),
            systems: counts.systems,
            parts: counts.parts,
        }
    }
}

/// The judge of a device table.
pub fn judge(table: &[u8]) -> Result<Counts, Refused>
    ensures { counted result ≡ judgement of_systems of_parts table.now }
{
    let table = Table::judge(table)?;
    Ok(Counts {
        systems: table.systems.count,
        parts: table.parts.count,
    })
}

/// Where the description of a part stands in a table.
pub fn find_place(table: &[u8], key: PartKey) -> Result<Range<usize>, Refused>
    ensures { placed result ≡ found_place of_systems of_parts table.now (key_bytes key) }
{
    let parts = Table::judge(table)?.parts;
    let key: [u8; 7] = key.into();
    let k = parts.position(0, &key).ok_or(Refusal::Unlisted)?;
    Ok(parts.behind_key(k))
}

/// The description of a part as that part of the caller's own table.
pub fn find(table: &[u8], key: PartKey) -> &[u8]
    ensures result_value { result.now ≡ part_in table.now (found_place of_systems of_parts table.now (key_bytes key)) }
    ensures ref_ptr_value { result.ref_ptr ≡ place_in table.entry.ref_ptr table.now (found_place of_systems of_parts table.now (key_bytes key)) }
{
    let place = find_place(table, key).unwrap_or_default();
    octets::part_of(table, place.start, place.end)
}
