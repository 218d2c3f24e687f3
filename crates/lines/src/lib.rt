//! The lines that the programs print, each made whole, so that one write prints it.
#![tactic(auto)]

ghost use Rattle.std.specs.Prelude.{◌≡◌, []};
ghost use Rattle.devices.specs.Tables.{of_systems, of_parts, earlier_parts};
ghost use Rattle.reading.specs.Events.{event_of};
ghost use Rattle.lines.specs.Events.{packet_line, event_line, last_line};
ghost use Rattle.lines.specs.Tables.{table_line, unjudged_line};

use reading::Event;
use row::{Last, Line, Text, Word};
use said::{FileName, Good, fault_of};
use verdict::Verdict;

pub mod row;
mod said;

/// Why a file could not be judged.
#[derive(Clone, Copy, Debug, PartialEq, Eq, Hash)]
pub enum Why {
    Absent,
    Folder,
    Barred,
    Broken,
    Longer,
}

/// The line of an event, of no bytes where more is asked for.
// Begun once and filled by each arm: a line that each arm makes is copied to where the answer is built.
#[tactic(auto, using(naming::proofs::Naming::short_name, crate::proofs::Wording::no_line, crate::proofs::Wording::packet_found))]
pub fn event_line(skipped: usize, event: Event, out: &[u8]) -> Line<128>
    ensures { result ≡ event_line skipped (event_of event) out.now }
{
    let mut line = Line::new();
    match event {
        Event::More => {}
        Event::Packet(length) => put_packet(&mut line, skipped, length, rows::span(out, 0, length)),
        _ => (Word(skipped), Last(naming::name_of(event.number()))).put(&mut line),
    }
    line
}

/// A packet's line: also its length, serial and command, and what its judge says.
#[tactic(auto, using(naming::proofs::Naming::short_name))]
fn put_packet(line: &mut Line<128>, skipped: usize, length: usize, p: &[u8])
    requires { line.old ≡ [] }
    ensures { line.new ≡ packet_line skipped length p.now }
{
    let header = packet::header_of(p);
    let verdict = Verdict::from(packet::judge(p));
    let serial = usize::from(header.serial);
    let command = usize::from(header.command);
    let words = (
        Word(length),
        Word(serial),
        Word(command),
        Last(naming::name_of(verdict.number)),
    );
    (Word(skipped), Word(naming::name_of(reading::PACKET)), words).put(line);
}

/// The last line: what is held and skipped at the end.
#[tactic(auto, using(crate::proofs::Adding::joined), unfolding(crate::specs::Events::last_line, crate::specs::Events::line))]
pub fn last_line(held: usize, skipped: usize) -> Line<128>
    ensures { result ≡ last_line held skipped }
{
    Line::of((Word("held"), Word(held), Word("skipped"), Last(skipped)))
}

/// The line of a device table file.
#[tactic(auto, using(naming::proofs::Naming::short_name, crate::proofs::Saying::good_line, crate::proofs::Saying::refused_line))]
pub fn table_line(name: &[u8], table: &[u8]) -> Line<4352>
    ensures { result ≡ table_line of_systems of_parts earlier_parts name.now table.now }
{
    let mut line = Line::new();
    match devices::judge(table) {
        Ok(counts) => {
            let good = Good {
                systems: counts.systems,
                parts: counts.parts,
                bytes: table.len(),
            };
            (FileName(name), "OK", good, "\n").put(&mut line);
        }
        Err(refused) => {
            let fault = fault_of(table, refused);
            let refusal = naming::name_of(refused.refusal.number());
            (FileName(name), refusal, fault, "\n").put(&mut line);
        }
    }
    line
}

/// The line of a file that could not be judged, since it is longer than a table may be or else cannot be read.
#[tactic(auto, unfolding(crate::specs::Tables::unjudged_line, crate::specs::Tables::file_line))]
pub fn unjudged_line(name: &[u8], why: Why) -> Line<4352>
    ensures { result ≡ unjudged_line name.now why }
{
    Line::of((FileName(name), why, "\n"))
}
