//! The entries of one section of a device table.

ghost use Rattle.std.specs.Prelude.{◌≡◌, ℕ, true, false, ◌+◌, ◌≤◌, ◌<◌, length, cond, Ok, Err, IfOk, IfSome, IsNone};
ghost use Rattle.std.specs.Cmp.Lexicographic.{slice_cmp};
ghost use Rattle.std.specs.Ordering.{nat_cmp};
ghost use Rattle.verdict.specs.Orders.{in_order, good, told, refused_at};
ghost use Rattle.verdict.specs.declared.Refusal.TheVariants.{Order};
ghost use Rattle.devices.specs.Keys.{below};
ghost use Rattle.devices.specs.Sections.{count_at, entry_at, end_of, first_bytes, key_at, rises, entry_of, is_listed, section_tests, rising_tests, each_entry};

use crate::Section;
use std::cmp::Ordering;
use std::ops::Range;
use verdict::{Refusal, Refused, ensure};

/// How two keys stand to one another, first byte foremost.
///
/// By itself and inlined, so that the sections' key lengths write its turns out: the `cmp` of slices is a call with loops for long ones.
#[inline(always)]
fn order(x: &[u8], y: &[u8]) -> Ordering
    ensures { result ≡ slice_cmp nat_cmp x.now y.now }
{
    for (a, b) in x.iter().zip(y) {
        match a.cmp(b) {
            Ordering::Equal => {}
            unequal => return unequal,
        }
    }
    x.len().cmp(&y.len())
}

/// The entries of a section that begins at a place of a table and is there to its end.
#[derive(Clone, Copy)]
pub(crate) struct Entries<'a> {
    table: &'a [u8],
    pub(crate) section: Section,
    from: usize,
    pub(crate) count: usize,
    ghost counted: { count ≡ count_at table.now from },
    ghost two_bytes: { count < 65536 },
    ghost whole: { entry_at section from count ≤ length table.now },
    ghost keyed: { section.key ≤ section.entry },
}

impl<'a> Entries<'a> {
    /// Reads a section: CUT of its count, MANY, CUT.
    #[tactic(auto, using(verdict::proofs::Walking::ordering), unfolding(crate::specs::Sections::count_at, crate::specs::Sections::entry_at))]
    pub(crate) fn read(table: &'a [u8], section: Section, from: usize) -> Result<Self, Refused>
        requires begins { from ≤ length table.now }
        requires keyed { section.key ≤ section.entry }
        requires small { section.entry < 65536 }
        ensures verdict { told result ≡ in_order (section_tests section table.now from) good }
        ensures table { IfOk result (λ entries. entries.table.now ≡ table.now) }
        ensures section { IfOk result (λ entries. entries.section ≡ section) }
        ensures from { IfOk result (λ entries. entries.from ≡ from) }
    {
        let left = table.len() - from;
        ensure(2 <= left, Refusal::Cut)?;
        // Of the rest by itself: its length, which was tested, rules out the way that copies fewer than two bytes.
        let count = usize::from(octets::two_at(&table[from..], 0));
        ensure(count <= section.limit, Refusal::Many)?;
        ensure(count * section.entry <= left - 2, Refusal::Cut)?;
        Ok(Entries {
            table,
            section,
            from,
            count,
        })
    }

    /// Where entry `k` begins; where the section ends for `count`.
    #[tactic(auto, using(crate::proofs::Standing::entry_within, crate::proofs::Standing::entry_inside), unfolding(crate::specs::Sections::entry_at))]
    fn start(&self, k: usize) -> usize
        requires { k ≤ self.now.count }
        ensures value { result ≡ entry_at self.now.section self.now.from k }
        ensures inside { k < self.now.count → result + self.now.section.entry ≤ length self.now.table.now }
    {
        self.from + 2 + k * self.section.entry
    }

    /// Where the section ends.
    pub(crate) fn end(&self) -> usize
        ensures value { result ≡ end_of self.now.section self.now.table.now self.now.from }
        ensures inside { result ≤ length self.now.table.now }
    {
        self.start(self.count)
    }

    /// The first `n` bytes of entry `k`.
    #[tactic(auto, using(crate::proofs::Standing::bytes_cut))]
    pub(crate) fn first_bytes(&self, k: usize, n: usize) -> &'a [u8]
        requires listed { k < self.now.count }
        requires inside { n ≤ self.now.section.entry }
        ensures { result.now ≡ first_bytes self.now.section self.now.table.now self.now.from k n }
    {
        let start = self.start(k);
        &self.table[start..start + n]
    }

    fn key(&self, k: usize) -> &'a [u8]
        requires { k < self.now.count }
        ensures { result.now ≡ key_at self.now.section self.now.table.now self.now.from k }
    {
        self.first_bytes(k, self.section.key)
    }

    /// Where what follows the key of entry `k` stands.
    pub(crate) fn behind_key(&self, k: usize) -> Range<usize>
        requires { k < self.now.count }
        ensures start { result.start ≡ entry_at self.now.section self.now.from k + self.now.section.key }
        ensures end { result.end ≡ entry_at self.now.section self.now.from k + self.now.section.entry }
    {
        let start = self.start(k);
        start + self.section.key..start + self.section.entry
    }

    /// Whether entry `k` stands above the one before it.
    #[tactic(auto, using(crate::proofs::Standing::rising))]
    fn is_rising(&self, k: usize) -> bool
        requires { k < self.now.count }
        ensures { result ≡ rises self.now.section self.now.table.now self.now.from k }
    {
        k == 0 || order(self.key(k - 1), self.key(k)).is_lt()
    }

    /// ORDER at a place, where entry `k` does not stand above the one before it.
    pub(crate) fn judge_rising(&self, k: usize, place: usize) -> Result<(), Refused>
        requires { k < self.now.count }
        ensures { result ≡ cond (rises self.now.section self.now.table.now self.now.from k) (Ok tt) (Err (refused_at Order place)) }
    {
        if self.is_rising(k) {
            Ok(())
        } else {
            Err(Refusal::Order.at(place))
        }
    }

    /// ORDER of the entries, one by one.
    #[tactic(auto, using(crate::proofs::Each::turn), unfolding(verdict::specs::Orders::in_order, crate::specs::Sections::each_entry))]
    pub(crate) fn judge_order(&self) -> Result<(), Refused>
        ensures { told result ≡ in_order (each_entry (rising_tests self.now.section self.now.table.now self.now.from) 0 self.now.count) good }
    {
        for k in 0..self.count {
            self.judge_rising(k, k)?;
        }
        Ok(())
    }

    /// Which entry has a key. The entries rise, and all before the first one that is asked stand below the key.
    pub(crate) fn position(&self, first: usize, key: &[u8]) -> Option<usize>
        requires rising { (k : ℕ) → k < self.now.count → rises self.now.section self.now.table.now self.now.from k ≡ true }
        requires passed { (k : ℕ) → k < first → below (key_at self.now.section self.now.table.now self.now.from k) key.now ≡ true }
        ensures unlisted { IsNone result → is_listed self.now.section self.now.table.now self.now.from key.now ≡ false }
        ensures within { IfSome result (λ k. k < self.now.count) }
        ensures entry { IfSome result (λ k. entry_of self.now.section self.now.table.now self.now.from key.now ≡ k) }
        ensures behind { IfSome result (λ m. (k : ℕ) → k < m → below (key_at self.now.section self.now.table.now self.now.from k) key.now ≡ true) }
    {
        for k in first..self.count {
            match order(self.key(k), key) {
                Ordering::Less => {}
                Ordering::Equal => return Some(k),
                Ordering::Greater => return None,
            }
        }
        None
    }
}
