//! The packet writer, and objects written into a packet's output.
#![tactic(auto)]

ghost use Rattle.std.specs.Prelude.{◌≡◌, ◌+◌, ◌≤◌, length as length_of};
ghost use Rattle.kinds.specs.Table.{table, rows};
ghost use Rattle.octets.specs.Parts.{part, put_at};
ghost use Rattle.output.specs.Packets.{head_bytes, packet_bytes};
ghost use Rattle.unit.specs.Units.{judged_under};
ghost use Rattle.verdict.specs.Orders.{in_order, good, told};
ghost use Rattle.output.specs.Writing.{room_tests, field_tests, packet_verdict, written_packet};
ghost use Rattle.output.specs.Objects.{object_verdict, written_object, output_text_verdict, written_output_text};

use fields::Fields;
use packet::Header;
use verdict::{Refusal, Refused, ensure};

/// A packet around the unit that already stands from byte 28 of the output.
#[tactic(auto, using(crate::proofs::Judging::writing))]
pub fn write(out: &mut [u8], header: Header, length: usize) -> Result<(), Refused>
    ensures value { told result ≡ packet_verdict rows out.old header length }
    ensures out_after { out.new ≡ written_packet rows out.old header length }
{
    judge_write(out, header, length)?;
    fill(out, header, length);
    Ok(())
}

/// The room, then what stands in the packet.
#[inline]
#[tactic(auto, using(crate::proofs::Judging::judging))]
fn judge_write(out: &[u8], header: Header, length: usize) -> Result<(), Refused>
    ensures { told result ≡ packet_verdict rows out.now header length }
{
    judge_room(out, length, 30)?;
    judge_content(out, header, length)
}

/// The header's command and label, then the unit under the command.
#[inline]
#[tactic(auto, unfolding(verdict::specs::Orders::in_order))]
fn judge_content(out: &[u8], header: Header, length: usize) -> Result<(), Refused>
    requires { length ≤ 1024 }
    ensures { told result ≡ in_order (field_tests header) (judged_under rows header.command (part out.now 27 (27 + length))) }
{
    ensure((1..=6).contains(&header.command), Refusal::Command)?;
    ensure(header.label.is_allowed(), Refusal::Time)?;
    unit::judge_under(octets::part_of(out, 27, 27 + length), header.command)
}

/// LENGTH, and ROOM for so many bytes beside the unit.
#[inline]
#[tactic(auto, unfolding(verdict::specs::Orders::in_order))]
fn judge_room(out: &[u8], length: usize, beside: usize) -> Result<(), Refused>
    requires { beside ≤ 30 }
    ensures { told result ≡ in_order (room_tests out.now length beside) good }
{
    ensure(length <= 1024, Refusal::Length)?;
    ensure(beside + length <= out.len(), Refusal::Room)
}

/// The bytes of a packet before its unit and behind it.
fn fill(out: &mut [u8], header: Header, length: usize)
    requires length_len_bound { length ≤ 1024 }
    requires length_bound { 30 + length ≤ length_of out.old }
    ensures { out.new ≡ put_at out.old 0 (packet_bytes header (part out.old 27 (27 + length))) }
{
    octets::put(out, 0, &head_bytes(header, length));
    let sum = octets::sum(&out[2..27 + length]);
    octets::put(out, 27 + length, &[sum, 35, 35]);
}

/// The 27 bytes before the unit: 64 and 64, serial, main version 1, user version, label, source, destination, L and command.
fn head_bytes(header: Header, length: usize) -> [u8; 27]
    requires { length ≤ 1024 }
    ensures { result ≡ head_bytes header length }
{
    let mut head: [u8; 27] = [64; 27];
    head[2..4].copy_from_slice(&octets::two_bytes(header.serial));
    head[4] = 1;
    head[5] = header.version;
    head[6..12].copy_from_slice(&header.label.bytes());
    head[12..18].copy_from_slice(&header.source);
    head[18..24].copy_from_slice(&header.destination);
    head[24..26].copy_from_slice(&octets::two_bytes(length as u16));
    head[26] = header.command;
    head
}

/// An object written into the unit that stands from byte 28 of a packet's output.
#[tactic(auto, using(crate::proofs::Lending::object_lent))]
pub fn write_object(
    out: &mut [u8],
    length: usize,
    number: usize,
    fields: Fields,
    description: &[u8],
) -> Result<(), Refused>
    ensures value { told result ≡ object_verdict rows out.old length number fields description.now }
    ensures out_after { out.new ≡ written_object table out.old length number fields description.now }
{
    judge_room(out, length, 27)?;
    objects::write(&mut out[27..27 + length], number, fields, description)
}

/// A unit of type 26 written from byte 28 of a packet's output on.
#[tactic(auto, using(crate::proofs::Lending::text_lent))]
pub fn write_text(out: &mut [u8], text: &[u8]) -> Result<(), Refused>
    ensures value { told result ≡ output_text_verdict out.old text.now }
    ensures out_after { out.new ≡ written_output_text out.old text.now }
{
    let from = out.len().min(27);
    objects::write_text(&mut out[from..], text)
}
