//! The stream receiver: by value, and on a lent hold.
#![tactic(auto)]

ghost use Rattle.std.specs.Prelude.{◌≡◌, IfErr};
ghost use Rattle.reading.specs.Calls.{fresh, called};
ghost use Rattle.receiver.specs.Receivers.{given, lent, receiver_of, received_of, served_of, received_by, served_by};

mod line;
mod serve;

use reading::Event;
use verdict::Refused;

/// Held bytes at the front of a row of zeros, and the skipped count.
#[derive(Clone, Copy, Debug, PartialEq, Eq, Hash)]
pub struct Receiver {
    pub hold: [u8; 1054],
    pub held: usize,
    pub skipped: usize,
}

/// The answer of a call: an event with the count that it carries, the bytes taken, and the new state.
#[derive(Clone, Copy, Debug, PartialEq, Eq, Hash)]
pub struct Received {
    pub event: Event,
    pub skipped: usize,
    pub taken: usize,
    pub state: Receiver,
}

/// The same of a call on a lent hold: the new held length and count, without the hold.
#[derive(Clone, Copy, Debug, PartialEq, Eq, Hash)]
pub struct Served {
    pub event: Event,
    pub skipped: usize,
    pub taken: usize,
    pub held: usize,
    pub count: usize,
}

impl Receiver {
    /// An empty receiver that has skipped nothing.
    #[tactic(auto, unfolding(frame::specs::Frame::room, reading::specs::Calls::pad_to))]
    pub fn fresh() -> Receiver
        ensures { result ≡ receiver_of (fresh 1024) }
    {
        Receiver {
            hold: [0; 1054],
            held: 0,
            skipped: 0,
        }
    }

    /// One call: an event or the wish for more. Refused, the receiver that came is the one to go on with.
    pub fn receive(self, piece: &[u8], out: &mut [u8]) -> Result<Received, Refused>
        ensures value { received_by (given self) result ≡ received_of (called 1024 (given self) piece.now out.old) }
        ensures place { IfErr result (λ refused. refused.place ≡ 0) }
        ensures out_after { out.new ≡ (called 1024 (given self) piece.now out.old).out }
    {
        let mut hold = self.hold;
        let served = receive_lent(&mut hold, self.held, self.skipped, piece, out)?;
        Ok(Received {
            event: served.event,
            skipped: served.skipped,
            taken: served.taken,
            state: Receiver {
                hold,
                held: served.held,
                skipped: served.count,
            },
        })
    }
}

/// Makes a lent hold that of a fresh receiver.
pub fn clear_lent(hold: &mut [u8; 1054])
    ensures { hold.new ≡ (fresh 1024).hold }
{
    rows::wipe(hold)
}

/// The same call on a lent hold, which is not copied; refused, the hold and the buffer are as they were.
#[tactic(auto, unfolding(frame::specs::Frame::room))]
pub fn receive_lent(
    hold: &mut [u8; 1054],
    held: usize,
    skipped: usize,
    piece: &[u8],
    out: &mut [u8],
) -> Result<Served, Refused>
    ensures value { served_by held skipped result ≡ served_of (called 1024 (lent hold.old held skipped) piece.now out.old) }
    ensures place { IfErr result (λ refused. refused.place ≡ 0) }
    ensures hold_after { hold.new ≡ (called 1024 (lent hold.old held skipped) piece.now out.old).state.hold }
    ensures out_after { out.new ≡ (called 1024 (lent hold.old held skipped) piece.now out.old).out }
{
    serve::serve::<1024>(hold, held, skipped, piece, out)
}
