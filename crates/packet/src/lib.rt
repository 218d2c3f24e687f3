//! The packet: its judge, its header by value, and its unit as a part.
#![tactic(auto)]

ghost use Rattle.std.specs.Prelude.{◌≡◌, IfOk};
ghost use Rattle.frame.specs.Frame.{unit_length};
ghost use Rattle.kinds.specs.Table.{rows};
ghost use Rattle.verdict.specs.Orders.{part_in, place_in, told, placed};
ghost use Rattle.packet.specs.Frames.{judged_content, judged_packet, unit_place};
ghost use Rattle.packet.specs.Headers.{header_of, opened_packet};

use label::{Label, Shown};
use octets::byte_at;
use std::ops::Range;
use verdict::{Refusal, Refused, Verdict, ensure};

/// A packet's fields; the addresses are kept as bytes.
#[repr(C)]
#[derive(Clone, Copy, Debug, Default, PartialEq, Eq, Hash)]
pub struct Header {
    pub serial: u16,
    pub version: u8,
    pub label: Label,
    pub source: [u8; 6],
    pub destination: [u8; 6],
    pub command: u8,
}

/// A packet's fields, what its header's label is and its unit's length with the verdict, zeros where it is refused.
#[repr(C)]
#[derive(Clone, Copy, Debug, PartialEq, Eq, Hash)]
pub struct Opened {
    pub verdict: Verdict,
    pub header: Header,
    pub shown: u8,
    pub length: usize,
}

/// VERSION, COMMAND and TIME of the header, then the unit under the command.
#[inline]
#[tactic(auto, unfolding(verdict::specs::Orders::in_order, crate::specs::Frames::judged_content))]
pub fn judge_content(p: &[u8]) -> Result<(), Refused>
    ensures { told result ≡ judged_content rows p.now }
{
    ensure(byte_at(p, 4) == 1, Refusal::Version)?;
    let command = byte_at(p, 26);
    ensure((1..=6).contains(&command), Refusal::Command)?;
    // Asked of the bytes, as in a unit, and not of a label that was read: the compiler then tests four of them at once.
    let label = p.get(6..).unwrap_or_default();
    ensure(Label::stands_in(label), Refusal::Time)?;
    let unit = octets::part_of(p, 27, 27 + frame::unit_length(p));
    unit::judge_under(unit, command)
}

/// The judge of a packet, which tells its unit's length.
#[inline]
#[tactic(auto, using(crate::proofs::Contents::judging))]
pub fn judge(p: &[u8]) -> Result<usize, Refused>
    ensures verdict { told result ≡ judged_packet rows p.now }
    ensures length { IfOk result (λ l. l ≡ unit_length p.now) }
{
    let length = frame::judge_frame(p)?;
    judge_content(p)?;
    Ok(length)
}

/// The header's fields as they stand in a packet; what is missing behind the end reads 0.
pub fn header_of(p: &[u8]) -> Header
    ensures { result ≡ header_of p.now }
{
    match p.first_chunk::<27>() {
        Some(head) => header_in(head),
        None => {
            let mut head = [0; 27];
            head[..p.len()].copy_from_slice(p);
            header_in(&head)
        }
    }
}

/// The same where nothing is missing: of 27 bytes the compiler reads each without a test.
#[inline]
fn header_in(head: &[u8; 27]) -> Header
    ensures { result ≡ header_of head.now }
{
    Header {
        serial: octets::two_at(head, 2),
        version: head[5],
        label: Label::read_at(head, 6),
        source: octets::six_at(head, 12),
        destination: octets::six_at(head, 18),
        command: head[26],
    }
}

/// A packet's fields, L and the verdict.
#[tactic(auto, using(crate::proofs::Opening::opened), unfolding(crate::specs::Headers::opened_packet))]
pub fn read(p: &[u8]) -> Opened
    ensures { result ≡ opened_packet rows p.now }
{
    let judged = judge(p);
    let Ok(length) = judged else {
        return Opened {
            verdict: judged.into(),
            header: Header::default(),
            shown: Shown::Nothing.number(),
            length: 0,
        };
    };
    let header = header_of(p);
    Opened {
        verdict: judged.into(),
        header,
        shown: header.label.shown().number(),
        length,
    }
}

/// Where a packet's unit stands.
#[tactic(auto, using(crate::proofs::Opening::standing))]
pub fn unit_place(p: &[u8]) -> Result<Range<usize>, Refused>
    ensures { placed result ≡ unit_place rows p.now }
{
    let length = judge(p)?;
    Ok(27..27 + length)
}

/// A packet's unit as that part of the caller's own bytes, empty where it is refused.
pub fn unit_of(p: &[u8]) -> &[u8]
    ensures result_value { result.now ≡ part_in p.now (unit_place rows p.now) }
    ensures ref_ptr_value { result.ref_ptr ≡ place_in p.entry.ref_ptr p.now (unit_place rows p.now) }
{
    match unit_place(p) {
        Ok(place) => octets::part_of(p, place.start, place.end),
        Err(_) => octets::part_of(p, 0, 0),
    }
}
