//! Operations on rows of bytes: parts, tests, runs, zeros.
#![tactic(auto)]

ghost use Rattle.std.specs.Prelude.{◌≡◌, ◌-◌, min, length, take, drop, replicate, eqb, position};
ghost use Rattle.octets.specs.Searches.{all_zero};
ghost use Rattle.rows.specs.Runs.{span_place, noise_run, plain_run};

mod passing;

use passing::{Test, Unmarked, Zero, left};

/// A difference, 0 where there is none.
pub fn less(x: usize, y: usize) -> usize
    ensures { result ≡ x - y }
{
    x.saturating_sub(y)
}

/// As many bytes from a place on as are there.
#[tactic(auto, unfolding(crate::specs::Runs::span_place))]
pub fn span(s: &[u8], from: usize, count: usize) -> &[u8]
    ensures result_value { result.now ≡ take count (drop from s.now) }
    ensures ref_ptr_value { result.ref_ptr ≡ span_place s.entry.ref_ptr s.now from }
{
    if s.len() < from {
        return &s[..0];
    }
    &s[from..from + count.min(s.len() - from)]
}

/// Whether every byte is zero: by blocks, of which the last may reach back over the one before.
#[tactic(auto, using(crate::proofs::Blocks::ends))]
pub fn clear(s: &[u8]) -> bool
    ensures { result ≡ all_zero s.now }
{
    if let Some(last) = s.last_chunk::<128>() {
        let rest = left::<Zero, 128>(left::<Zero, 512>(s));
        rest.len() < 128 && Zero::holds(last)
    } else if let Some(last) = s.last_chunk::<16>() {
        let rest = left::<Zero, 16>(s);
        rest.len() < 16 && Zero::holds(last)
    } else {
        Zero::holds(s)
    }
}

// The bytes before the first 64: by blocks, then one by one.
#[tactic(auto, using(crate::proofs::Plains::plains))]
fn plain(s: &[u8]) -> usize
    ensures { result ≡ plain_run s.now }
{
    if matches!(s, [64, ..]) {
        return 0;
    }
    let rest = left::<Unmarked, 16>(left::<Unmarked, 128>(left::<Unmarked, 1024>(s)));
    s.len() - rest.len() + first_mark(rest).unwrap_or(rest.len())
}

// Where the first 64 stands.
fn first_mark(s: &[u8]) -> Option<usize>
    ensures { result ≡ position (λ b. eqb b 64) s.now }
{
    s.iter().position(|b| *b == 64)
}

/// The bytes at the front that are noise for certain, at most so many.
#[tactic(auto, using(crate::proofs::Noises::noises))]
pub fn noise(s: &[u8], most: usize) -> usize
    ensures { result ≡ min most (noise_run s.now) }
{
    let end = most.min(s.len());
    let mut at = 0;
    // From one 64 to the next: one that is the last byte, or before another, may begin a packet.
    while at < end {
        at += plain(&s[at..end]);
        if at == end {
            return end;
        }
        if s.len() <= at + 1 || s[at + 1] == 64 {
            return at;
        }
        at += 1;
    }
    end
}

/// Zeros throughout.
pub fn wipe(row: &mut [u8])
    ensures { row.new ≡ replicate (length row.old) 0 }
{
    row.fill(0);
}
