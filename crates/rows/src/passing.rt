//! A test of every byte of a row, made block by block.
ghost use Rattle.std.specs.Prelude.{◌≡◌, ◌<◌, ℕ, Bool, not, eqb};
ghost use Rattle.octets.specs.Searches.{every};
ghost use Rattle.rows.specs.Blocks.{IsLeft};

/// A test of bytes, made of all bytes of a block at once.
pub trait Test {
    ghost passes: { ℕ → Bool };

    fn holds(block: &[u8]) -> bool
        ensures { result ≡ every passes block.now };
}

/// Zeros.
pub struct Zero;

impl Test for Zero {
    ghost passes = { λ b. eqb b 0 };

    // With no early way out, which the compiler makes fast.
    #[tactic(auto, using(crate::proofs::Tests::marks), unfolding(octets::specs::Searches::every))]
    fn holds(block: &[u8]) -> bool {
        let mut bits = 0;
        for byte in block {
            bits |= *byte;
        }
        bits == 0
    }
}

/// Bytes other than 64.
pub struct Unmarked;

impl Test for Unmarked {
    ghost passes = { λ b. not (eqb b 64) };

    // With no early way out, which the compiler makes fast.
    #[tactic(auto, using(crate::proofs::Tests::marks), unfolding(octets::specs::Searches::every))]
    fn holds(block: &[u8]) -> bool {
        let mut marks = 0;
        for byte in block {
            marks |= u8::from(*byte == 64);
        }
        marks == 0
    }
}

/// What is left of a row after the blocks of N bytes at its front that pass.
#[tactic(auto, using(crate::proofs::Blocks::blocks))]
pub fn left<T: Test, const N: usize>(s: &[u8]) -> &[u8]
    requires { 0 < N }
    ensures { IsLeft T.passes N s.now result.now }
{
    let mut at = 0;
    // By a place, since a rest split off at each turn misses the bar: noise in pieces of 4,096 bytes costs the receiver 1,200, and 1,174 before.
    while N <= s.len() - at && T::holds(&s[at..at + N]) {
        at += N;
    }
    &s[at..]
}
