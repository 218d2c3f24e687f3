//! A line as it grows, and what can be put into it.
//!
//! `Text` stands in the place of std's `Display`, whose contract speaks of what was written only where the writing answers `Ok`, and which writes
//! text alone: each line here comes whole, whatever it is made of, and a file's name may have any bytes.
ghost use Rattle.std.specs.Prelude.{◌≡◌, ℕ, ◌+◌, ◌≤◌, List, [], ◌∷◌, ◌++◌, length, take};
ghost use Rattle.lines.specs.Decimal.{decimal};

use itoa::Buffer;
use std::marker::Model;
use std::ops::DerefSlice;

/// A line, of at most `N` bytes.
#[derive(Drop)]
pub struct Line<const N: usize> {
    bytes: [u8; N],
    length: usize,
}

// Clauses see the bytes of the line.
impl<const N: usize> Model for Line<N> {
    ghost Value = { List ℕ };

    ghost view = { λ line. take line.length line.bytes };

    ghost invariant = { λ line. line.length ≤ N };
}

impl<const N: usize> DerefSlice for Line<N> {
    type Elem = u8;

    ghost deref_gives = { λ line bytes. bytes ≡ line };

    fn deref(&self) -> &[u8] {
        let all = &self.bytes[..];
        &all[..self.length]
    }
}

impl<const N: usize> Line<N> {
    /// A line of no bytes.
    pub(crate) fn new() -> Self
        ensures { result ≡ [] }
    {
        Line {
            bytes: [0; N],
            length: 0,
        }
    }

    /// The line that a text is.
    #[inline(always)]
    pub(crate) fn of<T: Text<N>>(text: T) -> Self
        requires { T.most text ≤ N }
        ensures { result ≡ T.text text }
    {
        let mut line = Line::new();
        text.put(&mut line);
        line
    }

    /// Adds bytes behind the others.
    #[inline(always)]
    fn push(&mut self, bytes: &[u8])
        requires { length self.old + length bytes.now ≤ N }
        ensures { self.new ≡ self.old ++ bytes.now }
    {
        let end = self.length + bytes.len();
        let all = &mut self.bytes[..];
        match bytes {
            // By itself: most words are parted by one byte, and many numbers have one digit; a call that copies costs more than the byte.
            [byte] => all[self.length] = *byte,
            _ => all[self.length..end].copy_from_slice(bytes),
        }
        self.length = end;
    }
}

/// What can be put into a line of `N` bytes.
pub(crate) trait Text<const N: usize>: Copy {
    ghost text: { Self → List ℕ };

    // At most so many bytes.
    ghost most: { Self → ℕ };

    /// Puts the text behind what the line has.
    fn put(self, line: &mut Line<N>)
        requires { length line.old + most self ≤ N }
        ensures so { line.new ≡ line.old ++ text self }
        ensures short { length line.new ≤ length line.old + most self };
}

impl<const N: usize> Text<N> for &str {
    ghost text = { λ s. s.now };

    ghost most = { λ s. length s.now };

    #[inline(always)]
    fn put(self, line: &mut Line<N>) {
        line.push(self.as_bytes());
    }
}

impl<const N: usize> Text<N> for &[u8] {
    ghost text = { λ s. s.now };

    ghost most = { λ s. length s.now };

    #[inline(always)]
    fn put(self, line: &mut Line<N>) {
        line.push(self);
    }
}

// In decimal.
impl<const N: usize> Text<N> for usize {
    ghost text = { decimal };

    ghost most = { λ _. 20 };

    #[inline(always)]
    #[tactic(auto, using(crate::proofs::Digits::as_printed))]
    fn put(self, line: &mut Line<N>) {
        let mut digits = Buffer::new();
        line.push(digits.format(self).as_bytes());
    }
}

impl<const N: usize, A: Text<N>, B: Text<N>> Text<N> for (A, B) {
    ghost text = { λ x. A.text x.0 ++ B.text x.1 };

    ghost most = { λ x. A.most x.0 + B.most x.1 };

    #[inline(always)]
    fn put(self, line: &mut Line<N>) {
        self.0.put(line);
        self.1.put(line);
    }
}

impl<const N: usize, A: Text<N>, B: Text<N>, C: Text<N>> Text<N> for (A, B, C) {
    ghost text = { λ x. A.text x.0 ++ B.text x.1 ++ C.text x.2 };

    ghost most = { λ x. A.most x.0 + B.most x.1 + C.most x.2 };

    #[inline(always)]
    fn put(self, line: &mut Line<N>) {
        ((self.0, self.1), self.2).put(line);
    }
}

impl<const N: usize, A: Text<N>, B: Text<N>, C: Text<N>, D: Text<N>> Text<N> for (A, B, C, D) {
    ghost text = { λ x. A.text x.0 ++ B.text x.1 ++ C.text x.2 ++ D.text x.3 };

    ghost most = { λ x. A.most x.0 + B.most x.1 + C.most x.2 + D.most x.3 };

    #[inline(always)]
    fn put(self, line: &mut Line<N>) {
        ((self.0, self.1), (self.2, self.3)).put(line);
    }
}

impl<const N: usize, A: Text<N>, B: Text<N>, C: Text<N>, D: Text<N>, E: Text<N>, F: Text<N>> Text<N>
    for (A, B, C, D, E, F) {
    ghost text = { λ x. A.text x.0 ++ B.text x.1 ++ C.text x.2 ++ D.text x.3 ++ E.text x.4 ++ F.text x.5 };

    ghost most = { λ x. A.most x.0 + B.most x.1 + C.most x.2 + D.most x.3 + E.most x.4 + F.most x.5 };

    #[inline(always)]
    fn put(self, line: &mut Line<N>) {
        ((self.0, self.1, self.2), (self.3, self.4, self.5)).put(line);
    }
}

/// A word, and the blank that parts it from the next one.
#[derive(Clone, Copy)]
pub(crate) struct Word<T>(pub(crate) T);

impl<const N: usize, T: Text<N>> Text<N> for Word<T> {
    ghost text = { λ word. T.text word.0 ++ (32 ∷ []) };

    ghost most = { λ word. T.most word.0 + 1 };

    #[inline(always)]
    fn put(self, line: &mut Line<N>) {
        (self.0, " ").put(line);
    }
}

/// The last word of a line, and the newline.
#[derive(Clone, Copy)]
pub(crate) struct Last<T>(pub(crate) T);

impl<const N: usize, T: Text<N>> Text<N> for Last<T> {
    ghost text = { λ word. T.text word.0 ++ (10 ∷ []) };

    ghost most = { λ word. T.most word.0 + 1 };

    #[inline(always)]
    fn put(self, line: &mut Line<N>) {
        (self.0, "\n").put(line);
    }
}
