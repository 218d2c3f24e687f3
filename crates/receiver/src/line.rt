//! Bytes in two parts, read as one: what stands at their head, what is found first, and a packet copied out of them.
ghost use Rattle.std.specs.Prelude.{◌≡◌, ◌+◌, ◌-◌, ◌≤◌, length, get_or, min, take, drop};
ghost use Rattle.frame.specs.Frame.{sum_of};
ghost use Rattle.reading.specs.Events.{event_of};
ghost use Rattle.reading.specs.Values.{told, packet_of};
ghost use Rattle.reading.specs.Standing.{stands, started, judged_frame};
ghost use Rattle.reading.specs.Finding.{first};
ghost use Rattle.reading.specs.Calls.{copied};
ghost use Rattle.rows.specs.Runs.{noise_run};
ghost use Rattle.receiver.specs.Runs.{crossing};

use reading::Event;

/// What stands at a position: too few bytes to decide, a byte to skip with so many bytes looked at, or an event with the
/// bytes looked at and the bytes passed.
#[derive(Clone, Copy, Debug, PartialEq, Eq, Hash)]
pub enum Standing {
    Wait,
    Skip(usize),
    Hit(Event, usize, usize),
}

/// What is found first: the event with the count that it carries, where it stands, how many bytes were looked at, the
/// next position, and the count from there on.
#[derive(Clone, Copy, Debug, PartialEq, Eq, Hash)]
pub struct Step {
    pub event: Event,
    pub carried: usize,
    pub at: usize,
    pub looked: usize,
    pub next: usize,
    pub count: usize,
}

/// The bytes of a line, a unit of at most `MAX` bytes in each packet: those held and those offered, or what is left of them.
#[derive(Drop)]
pub struct Line<'a, const MAX: usize> {
    pub front: &'a [u8],
    pub back: &'a [u8],
    ghost small: { MAX ≤ 1024 },
}

impl<'a, const MAX: usize> Line<'a, MAX> {
    ghost use Rattle.receiver.specs.Lines.{bytes, standing_of, step_of};

    /// What is found first, with so many bytes skipped before.
    #[tactic(auto, using(crate::proofs::Aheads::heres))]
    pub fn first(&self, skipped: usize) -> Step
        requires { skipped ≤ 65534 }
        ensures { step_of result ≡ first MAX skipped (bytes self.now) }
    {
        let at = self.noise(skipped);
        let count = skipped + at;
        match self.behind(at).stands() {
            Standing::Wait => Step {
                event: Event::More,
                carried: 0,
                at,
                looked: self.len(),
                next: at,
                count,
            },
            Standing::Skip(k) => Step {
                event: Event::Noise,
                carried: 65535,
                at,
                looked: at + k,
                next: at + 1,
                count: 0,
            },
            Standing::Hit(event, k, p) => Step {
                event,
                carried: count,
                at,
                looked: at + k,
                next: at + p,
                count: 0,
            },
        }
    }

    /// How many bytes there are.
    fn len(&self) -> usize
        ensures { result ≡ length (bytes self.now) }
    {
        self.front.len() + self.back.len()
    }

    /// The byte at a place, 0 behind the end.
    #[tactic(auto, using(crate::proofs::Spans::parts))]
    fn byte(&self, at: usize) -> u8
        ensures { result ≡ get_or (bytes self.now) at 0 }
    {
        if at < self.front.len() {
            self.front[at]
        } else {
            octets::byte_at(self.back, at - self.front.len())
        }
    }

    /// The bytes at the head that are noise for certain, with so many skipped before, as far as the count goes.
    #[tactic(auto, using(crate::proofs::Joins::joining))]
    fn noise(&self, skipped: usize) -> usize
        requires { skipped ≤ 65534 }
        ensures { result ≡ min (65534 - skipped) (noise_run (bytes self.now)) }
    {
        let n = rows::noise(self.front, 65534 - skipped);
        let count = skipped + n;
        let left = self.front.len() - n;
        if self.crosses(left, count) {
            n + 1 + rows::noise(self.back, 65533 - count)
        } else if left == 0 {
            n + rows::noise(self.back, 65534 - count)
        } else {
            n
        }
    }

    /// Whether the last byte of the first part, a 64, is skipped by what follows it, and does not fill the count.
    #[tactic(auto, using(crate::proofs::Crossings::crossings))]
    fn crosses(&self, left: usize, count: usize) -> bool
        ensures { result ≡ crossing left self.now.back.now count }
    {
        left == 1 && count < 65534 && !self.back.is_empty() && self.back[0] != 64
    }

    /// What is left behind so many bytes, in the first part where it can be.
    #[tactic(auto, using(crate::proofs::Spans::parts))]
    fn behind(&self, at: usize) -> Line<'a, MAX>
        requires { at ≤ length (bytes self.now) }
        ensures { bytes result ≡ drop at (bytes self.now) }
    {
        if at < self.front.len() {
            Line {
                front: &self.front[at..],
                back: self.back,
            }
        } else {
            Line {
                front: &self.back[at - self.front.len()..],
                back: &[],
            }
        }
    }

    /// So many bytes at the head, in the first part where they can be.
    #[tactic(auto, using(crate::proofs::Spans::parts))]
    fn head(&self, n: usize) -> Line<'a, MAX>
        requires { n ≤ length (bytes self.now) }
        ensures { bytes result ≡ take n (bytes self.now) }
    {
        if n <= self.front.len() {
            Line {
                front: &self.front[..n],
                back: &[],
            }
        } else {
            Line {
                front: self.front,
                back: &self.back[..n - self.front.len()],
            }
        }
    }

    /// What stands at the head.
    #[tactic(auto, using(crate::proofs::Walks::walk))]
    fn stands(&self) -> Standing
        ensures { standing_of result ≡ stands MAX (bytes self.now) }
    {
        match self.len() {
            0 => Standing::Wait,
            _ if self.byte(0) != 64 => Standing::Skip(1),
            1 => Standing::Wait,
            _ if self.byte(1) != 64 => Standing::Skip(2),
            _ => self.started(),
        }
    }

    /// What a start stands for: its length, then its frame.
    #[tactic(auto, using(crate::proofs::Walks::walk))]
    fn started(&self) -> Standing
        ensures { standing_of result ≡ started MAX (bytes self.now) }
    {
        let n = self.len();
        if n < 26 {
            return Standing::Wait;
        }
        let l = usize::from(self.byte(24)) + 256 * usize::from(self.byte(25));
        if MAX < l {
            Standing::Hit(Event::Length, 26, 1)
        } else if n < 30 + l {
            Standing::Wait
        } else {
            self.judged_frame(l)
        }
    }

    /// A frame that is there whole.
    #[tactic(auto, using(crate::proofs::Walks::walk))]
    fn judged_frame(&self, l: usize) -> Standing
        requires few { l ≤ 1024 }
        requires there { 30 + l ≤ length (bytes self.now) }
        ensures { standing_of result ≡ judged_frame l (bytes self.now) }
    {
        if self.byte(28 + l) != 35 || self.byte(29 + l) != 35 {
            Standing::Hit(Event::End, 30 + l, 1)
        } else if self.sum(l) != self.byte(27 + l) {
            Standing::Hit(Event::Sum, 30 + l, 1)
        } else {
            Standing::Hit(Event::Packet(30 + l), 30 + l, 30 + l)
        }
    }

    /// The sum of bytes 3 to 27+L: all are added up, then what is above eight bits is dropped.
    #[tactic(auto, using(crate::proofs::Spans::parts))]
    fn sum(&self, l: usize) -> u8
        requires few { l ≤ 1024 }
        requires there { 27 + l ≤ length (bytes self.now) }
        ensures { result ≡ sum_of l (bytes self.now) }
    {
        let summed = self.behind(2).head(25 + l);
        ((octets::added(summed.front) + octets::added(summed.back)) % 256) as u8
    }

    /// The packet that was found, copied to the front of a buffer; nothing else writes there.
    #[tactic(auto, using(crate::proofs::Settles::delivering))]
    pub fn deliver(&self, found: &Step, out: &mut [u8])
        requires there { found.now.at + (told (event_of found.now.event)).length ≤ length (bytes self.now) }
        requires fits { (told (event_of found.now.event)).length ≤ length out.old }
        ensures { out.new ≡ copied (packet_of (event_of found.now.event) (drop found.now.at (bytes self.now))) out.old }
    {
        if let Event::Packet(length) = found.event {
            let packet = self.behind(found.at).head(length);
            octets::put(out, 0, packet.front);
            octets::put(out, packet.front.len(), packet.back);
        }
    }
}
