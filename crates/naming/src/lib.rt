//! The names of refusals, events and outcomes, as the programs print them and as a lent row receives them.
#![tactic(auto)]

ghost use Rattle.std.specs.Prelude.{◌≡◌};
ghost use Rattle.octets.specs.Parts.{put_at};
ghost use Rattle.verdict.specs.Orders.{placed};
ghost use Rattle.naming.specs.Names.{letters};
ghost use Rattle.naming.specs.Fronts.{front_part};

use place::Outcome;
use reading::Event;
use std::ops::Range;
use verdict::{Refusal, Refused, ensure};

/// The name under a number, of no letters where the number has none.
#[tactic(auto, using(crate::proofs::Naming::naming))]
pub fn name_of(number: u8) -> &'static str
    ensures { result.now ≡ letters number }
{
    match number {
        reading::MORE => Event::More.name(),
        reading::NOISE => Event::Noise.name(),
        reading::PACKET => Event::Packet(0).name(),
        _ => match Outcome::try_from(number) {
            Ok(outcome) => outcome.name(),
            Err(_) => Refusal::try_from(number).map_or("", Refusal::name),
        },
    }
}

/// Writes the name under a number to the front of a lent row.
pub fn write_name(number: u8, out: &mut [u8]) -> Result<Range<usize>, Refused>
    ensures value { placed result ≡ front_part (letters number) out.old }
    ensures out_after { out.new ≡ put_at out.old 0 (letters number) }
{
    write_front(name_of(number).as_bytes(), out)
}

/// Writes a text to the front of a lent row; ROOM where the row is shorter.
#[tactic(auto, using(crate::proofs::Fronts::short_part, crate::proofs::Fronts::short_kept, crate::proofs::Fronts::room_part))]
pub fn write_front(text: &[u8], out: &mut [u8]) -> Result<Range<usize>, Refused>
    ensures value { placed result ≡ front_part text.now out.old }
    ensures out_after { out.new ≡ put_at out.old 0 text.now }
{
    ensure(text.len() <= out.len(), Refusal::Room)?;
    octets::put(out, 0, text);
    Ok(0..text.len())
}
