//! One call on a lent row, over the largest unit.
ghost use Rattle.std.specs.Prelude.{◌≡◌, ℕ, ◌++◌, ◌-◌, ◌≤◌, length, take, drop, IfErr};
ghost use Rattle.frame.specs.Frame.{room};
ghost use Rattle.reading.specs.Calls.{pad_to, sound, called};
ghost use Rattle.receiver.specs.Shifts.{shifted};
ghost use Rattle.receiver.specs.Receivers.{lent, served_of, served_by};

use crate::Served;
use crate::line::Line;
use verdict::{Refusal, Refused, ensure};

/// The call: refused by its state or its buffer, else what is found first decides.
// Its state comes in three parts, as C has them: a struct would be put together here and taken apart below.
pub fn serve<const MAX: usize>(
    hold: &mut [u8],
    held: usize,
    skipped: usize,
    piece: &[u8],
    out: &mut [u8],
) -> Result<Served, Refused>
    requires max_bound { MAX ≤ 1024 }
    requires hold_len { length hold.old ≡ room MAX }
    ensures value { served_by held skipped result ≡ served_of (called MAX (lent hold.old held skipped) piece.now out.old) }
    ensures place { IfErr result (λ refused. refused.place ≡ 0) }
    ensures hold_after { hold.new ≡ (called MAX (lent hold.old held skipped) piece.now out.old).state.hold }
    ensures out_after { out.new ≡ (called MAX (lent hold.old held skipped) piece.now out.old).out }
{
    ensure(keeps_rules(hold, held, skipped), Refusal::State)?;
    ensure(30 + MAX <= out.len(), Refusal::Room)?;
    let line = Line::<MAX> {
        front: &hold[..held],
        back: piece,
    };
    let found = line.first(skipped);
    line.deliver(&found, out);
    let taken = rows::less(found.looked, held);
    let now = settle(hold, held, found.next, &piece[..taken]);
    Ok(Served {
        event: found.event,
        skipped: found.carried,
        taken,
        held: now,
        count: found.count,
    })
}

/// Whether the state keeps its rules.
#[tactic(auto, using(crate::proofs::Rules::rules_kept))]
fn keeps_rules(hold: &[u8], held: usize, skipped: usize) -> bool
    ensures { (M : ℕ) → length hold.now ≡ room M → result ≡ sound M (lent hold.now held skipped) }
{
    held <= hold.len() && skipped <= 65534 && rows::clear(&hold[held..])
}

/// The hold after a call: what follows the next position of the held bytes and of what was taken, and zero behind it.
fn settle(hold: &mut [u8], held: usize, next: usize, taken: &[u8]) -> usize
    requires held_in_bounds { held ≤ length hold.old }
    requires hold_value { hold.old ≡ pad_to (length hold.old) (take held hold.old) }
    requires taken_in_bounds { length (drop next (take held hold.old ++ taken.now)) ≤ length hold.old }
    ensures value { result ≡ length (drop next (take held hold.old ++ taken.now)) }
    ensures hold_after { hold.new ≡ pad_to (length hold.old) (drop next (take held hold.old ++ taken.now)) }
{
    let keep = rows::less(held, next);
    shift(hold, next, keep);
    let tail = rows::span(taken, rows::less(next, held), taken.len());
    octets::put(hold, keep, tail);
    let now = keep + tail.len();
    if now < held {
        rows::wipe(&mut hold[now..held]);
    }
    now
}

/// So many bytes from a place on moved to the front.
#[tactic(auto, using(crate::proofs::Settles::moving))]
fn shift(row: &mut [u8], by: usize, count: usize)
    requires { count ≤ length row.old - by }
    ensures { row.new ≡ shifted row.old by count }
{
    match (by, count) {
        (0, _) | (_, 0) => {}
        // By itself, since the compiler makes one move of it: without, packets of 64s with a wrong sum cost 490 a call, and 471 before.
        (1, _) => row.copy_within(1..1 + count, 0),
        _ => row.copy_within(by..by + count, 0),
    }
}
