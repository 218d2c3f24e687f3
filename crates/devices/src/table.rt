//! A device table: its systems, and the parts behind them.

ghost use Rattle.std.specs.Prelude.{◌≡◌, ℕ, true, ◌<◌, IfOk};
ghost use Rattle.verdict.specs.Orders.{in_order, good, told};
ghost use Rattle.devices.specs.Sections.{rises};
ghost use Rattle.devices.specs.Tables.{of_systems, of_parts, parts_from, parts_tests, judged};

use crate::entries::Entries;
use crate::{PARTS, SYSTEMS};
use verdict::{Refusal, Refused, ensure};

/// The two sections of a table whose systems rise.
#[derive(Clone, Copy)]
pub(crate) struct Table<'a> {
    pub(crate) systems: Entries<'a>,
    pub(crate) parts: Entries<'a>,
    ghost systems_section: { systems.section ≡ of_systems },
    ghost systems_from: { systems.from ≡ 0 },
    ghost systems_rise: { (k : ℕ) → k < systems.count → rises systems.section systems.table.now systems.from k ≡ true },
    ghost one_table: { parts.table.now ≡ systems.table.now },
    ghost parts_section: { parts.section ≡ of_parts },
    ghost parts_follow: { parts.from ≡ parts_from of_systems systems.table.now },
}

impl<'a> Table<'a> {
    /// Judges a table: each section's count and size and then its entries one by one; TAIL last.
    ///
    /// Inlined, so that its callers know the sections' sizes and a refusal fills no table in memory.
    #[inline(always)]
    pub(crate) fn judge(bytes: &'a [u8]) -> Result<Self, Refused>
        ensures verdict { told result ≡ judged of_systems of_parts bytes.now }
        ensures table { IfOk result (λ table. table.systems.table.now ≡ bytes.now) }
    {
        let systems = Entries::read(bytes, SYSTEMS, 0)?;
        systems.judge_order()?;
        let parts = Entries::read(bytes, PARTS, systems.end())?;
        let table = Table { systems, parts };
        table.judge_parts()?;
        ensure(bytes.len() <= parts.end(), Refusal::Tail)?;
        Ok(table)
    }

    /// ORDER and ORPHAN of the parts, one by one. Both sections rise, so one walk along the systems serves all parts.
    fn judge_parts(&self) -> Result<(), Refused>
        ensures { told result ≡ in_order (parts_tests of_systems of_parts self.now.systems.table.now) good }
    {
        let mut at = 0;
        for k in 0..self.parts.count {
            let place = self.systems.count + k;
            self.parts.judge_rising(k, place)?;
            let system = self.parts.first_bytes(k, self.systems.section.key);
            at = self
                .systems
                .position(at, system)
                .ok_or(Refusal::Orphan.at(place))?;
        }
        Ok(())
    }
}
