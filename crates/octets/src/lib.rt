//! Bytes as the standard counts them: numbers low byte first, parts, bytes put into a lent row, and the sum.
#![tactic(auto)]

ghost use Rattle.std.specs.Prelude.{◌≡◌, ◌%◌, ◌<◌, ◌≤◌, length, get_or, take, drop};
ghost use Rattle.octets.specs.Numbers.{Octets, low_first, bytes_of, signed_of, bits_of};
ghost use Rattle.octets.specs.Parts.{part, part_place, put_at, one_by_one};
ghost use Rattle.octets.specs.Searches.{same};
ghost use Rattle.octets.specs.Sums.{total};

/// The byte at a place, 0 behind the end.
pub fn byte_at(s: &[u8], at: usize) -> u8
    ensures { result ≡ get_or s.now at 0 }
{
    s.get(at).copied().unwrap_or(0)
}

/// A byte as a number that is wide enough to count with.
pub fn wide(x: u8) -> usize
    ensures value { result ≡ x }
    ensures upper_bound { result < 256 }
{
    usize::from(x)
}

/// The number of the two bytes from a place on.
#[tactic(auto, using(crate::proofs::Numbers::two_read))]
pub fn two_at(s: &[u8], at: usize) -> u16
    ensures { result ≡ low_first (take 2 (drop at s.now)) }
{
    u16::from_le_bytes(bytes_at(s, at))
}

/// The number of the four bytes from a place on.
#[tactic(auto, using(crate::proofs::Numbers::four_read))]
pub fn four_at(s: &[u8], at: usize) -> u32
    ensures { result ≡ low_first (take 4 (drop at s.now)) }
{
    u32::from_le_bytes(bytes_at(s, at))
}

/// Six bytes from a place on, 0 behind the end.
pub fn six_at(s: &[u8], at: usize) -> [u8; 6]
    ensures { result ≡ one_by_one s.now at 6 }
{
    bytes_at(s, at)
}

// So many bytes from a place on, 0 behind the end; where all are there one test of the length is enough.
#[tactic(auto, using(crate::proofs::Parts::all_there, crate::proofs::Parts::some_there))]
fn bytes_at<const N: usize>(s: &[u8], at: usize) -> [u8; N]
    ensures { result ≡ one_by_one s.now at N }
{
    let rest = rest_of(s, at);
    match rest.first_chunk::<N>() {
        Some(bytes) => *bytes,
        None => {
            let mut bytes = [0; N];
            bytes[..rest.len()].copy_from_slice(rest);
            bytes
        }
    }
}

// The bytes from a place on, none behind the end.
fn rest_of(s: &[u8], at: usize) -> &[u8]
    ensures { result.now ≡ drop at s.now }
{
    s.get(at..).unwrap_or_default()
}

/// Whether six bytes are the same as six others.
///
/// By their numbers, and not by `==`, which makes six tests of them: a tick of an empty table took 390 instructions, not 317.
#[tactic(auto, using(crate::proofs::Alike::alike))]
pub fn same_six(a: [u8; 6], b: [u8; 6]) -> bool
    ensures { result ≡ same a b }
{
    number_of(a) == number_of(b)
}

// The number of six bytes.
#[tactic(auto, unfolding(crate::specs::Numbers::low_first))]
fn number_of(a: [u8; 6]) -> u64
    ensures value { result ≡ low_first a }
    ensures octets { Octets a }
{
    u64::from_le_bytes([a[0], a[1], a[2], a[3], a[4], a[5], 0, 0])
}

/// The two bytes that stand for a number.
#[tactic(auto, unfolding(crate::specs::Numbers::bytes_of))]
pub fn two_bytes(x: u16) -> [u8; 2]
    ensures { result ≡ bytes_of 2 x }
{
    x.to_le_bytes()
}

/// The four bytes that stand for a number.
#[tactic(auto, unfolding(crate::specs::Numbers::bytes_of))]
pub fn four_bytes(x: u32) -> [u8; 4]
    ensures { result ≡ bytes_of 4 x }
{
    x.to_le_bytes()
}

/// The signed number that two bytes stand for.
#[tactic(auto, unfolding(crate::specs::Numbers::signed_of))]
pub fn signed(x: u16) -> i16
    ensures { result ≡ signed_of x }
{
    x.cast_signed()
}

/// The two bytes, as a number, that stand for a signed number.
#[tactic(auto, unfolding(crate::specs::Numbers::bits_of))]
pub fn bits(x: i16) -> u16
    ensures { result ≡ bits_of x }
{
    x.cast_unsigned()
}

/// The part from one place to another, empty at the front where there is no such part.
#[tactic(auto, unfolding(crate::specs::Parts::part, crate::specs::Parts::part_place))]
pub fn part_of(s: &[u8], from: usize, to: usize) -> &[u8]
    ensures result_value { result.now ≡ part s.now from to }
    ensures ref_ptr_value { result.ref_ptr ≡ part_place s.entry.ref_ptr s.now from to }
{
    if from <= to && to <= s.len() {
        &s[from..to]
    } else {
        &s[..0]
    }
}

/// Bytes put at a place of a lent row; what does not fit changes nothing.
#[tactic(auto, unfolding(crate::specs::Parts::put_at))]
pub fn put(out: &mut [u8], at: usize, bytes: &[u8])
    ensures { out.new ≡ put_at out.old at bytes.now }
{
    if out.len() < at || out.len() - at < bytes.len() {
        return;
    }
    match bytes {
        [] => {}
        // By itself: for one byte, as in pieces of one, a call that copies takes 21 instructions more.
        [byte] => out[at] = *byte,
        _ => out[at..at + bytes.len()].copy_from_slice(bytes),
    }
}

/// The sum of at most the first 1,049 bytes: all are added up, then what is above eight bits is dropped.
pub fn sum(s: &[u8]) -> u8
    ensures { result ≡ total (take 1049 s.now) % 256 }
{
    (added(s) % 256) as u8
}

/// At most the first 1,049 bytes added up and nothing dropped, so that two rows can be added before the drop.
#[tactic(auto, using(crate::proofs::Sums::take_least))]
pub fn added(s: &[u8]) -> u32
    ensures value { result ≡ total (take 1049 s.now) }
    ensures upper_bound { result ≤ 267495 }
{
    add_up(&s[..s.len().min(1049)])
}

// All of at most 1,049 bytes added up; nothing is lost on the way, since they make 267,495 at most.
#[tactic(auto, using(crate::proofs::Sums::total_is_sum, crate::proofs::Sums::of_few))]
fn add_up(s: &[u8]) -> u32
    requires { length s.now ≤ 1049 }
    ensures value { result ≡ total s.now }
    ensures upper_bound { result ≤ 267495 }
{
    s.iter().map(|b| u32::from(*b)).sum()
}
