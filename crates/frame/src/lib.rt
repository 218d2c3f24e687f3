//! A packet's frame: what its bytes 25 and 26, its end and its sum say, and its judge.
#![tactic(auto)]

ghost use Rattle.std.specs.Prelude.{◌≡◌, ◌<◌, ◌≤◌, length, IfOk};
ghost use Rattle.verdict.specs.Orders.{in_order, good, told};
ghost use Rattle.frame.specs.Frame.{packet_length, unit_length, summed, frame_tests};

use verdict::{Refusal, Refused, ensure};

/// L as bytes 25 and 26 say it.
#[inline]
#[tactic(auto, unfolding(crate::specs::Frame::unit_length))]
pub fn unit_length(p: &[u8]) -> usize
    ensures value { result ≡ unit_length p.now }
    ensures upper_bound { result < 65536 }
{
    usize::from(octets::two_at(p, 24))
}

/// L of a packet whose frame is good; else CUT, START, LENGTH, CUT, END or SUM.
#[inline]
#[tactic(auto, unfolding(verdict::specs::Orders::in_order, crate::specs::Frame::ended))]
pub fn judge_frame(p: &[u8]) -> Result<usize, Refused>
    ensures verdict { told result ≡ in_order (frame_tests 1024 p.now) good }
    ensures length { IfOk result (λ l. l ≡ unit_length p.now) }
{
    ensure(30 <= p.len(), Refusal::Cut)?;
    ensure(p[0] == 64 && p[1] == 64, Refusal::Start)?;
    let l = unit_length(p);
    ensure(l <= 1024, Refusal::Length)?;
    ensure(p.len() == 30 + l, Refusal::Cut)?;
    ensure(p[28 + l] == 35 && p[29 + l] == 35, Refusal::End)?;
    ensure(is_summed(p, l), Refusal::Sum)?;
    Ok(l)
}

/// Whether byte 28+L is the sum of bytes 3 to 27+L.
#[inline]
#[tactic(auto, using(crate::proofs::Framing::sum_is), unfolding(crate::specs::Frame::summed))]
fn is_summed(p: &[u8], l: usize) -> bool
    requires few { l ≤ 1024 }
    requires long { length p.now ≡ packet_length l }
    ensures { result ≡ summed l p.now }
{
    octets::sum(&p[2..27 + l]) == p[27 + l]
}
