//! Lists the events of the stream on its standard input, a line for each, and last what is held and skipped.
#![tactic(auto)]

use reading::Event;
use std::io::Read;
use std::{fmt, io};
use verdict::Refused;

/// Why the listing ends before the end of the stream.
#[derive(Debug, Drop)]
enum Failure {
    Input(io::Error),
    Output(io::Error),
    State,
}

impl fmt::Display for Failure {
    fn fmt<W: fmt::Write>(&self, f: &mut fmt::Formatter<W>) -> fmt::Result {
        match self {
            Failure::Input(error) => write!(f, "standard input: {error}"),
            Failure::Output(error) => write!(f, "standard output: {error}"),
            Failure::State => write!(f, "the receiver refused its state"),
        }
    }
}

impl From<Refused> for Failure {
    fn from(_refused: Refused) -> Failure {
        Failure::State
    }
}

/// A receiver in the parts that it keeps from call to call, and the buffer that packets are copied to.
#[derive(Drop)]
struct Listing {
    hold: [u8; 1054],
    held: usize,
    skipped: usize,
    out: [u8; 1054],
}

impl Listing {
    fn fresh() -> Listing {
        Listing {
            hold: [0; 1054],
            held: 0,
            skipped: 0,
            out: [0; 1054],
        }
    }

    /// Reads to the end of the input; a read that fails is told from the end, so that no beginning of a stream is listed for the whole.
    fn list<R: Read>(&mut self, rt: &impl Print, input: &mut R) -> Result<(), Failure> {
        let mut buffer = [0u8; 4096];
        // A loop has to be seen to end, and only the input says how many reads there are: the count is never reached.
        for _ in 0..u64::MAX {
            match input.read(&mut buffer).map_err(Failure::Input)? {
                0 => return print_line(rt, &lines::last_line(self.held, self.skipped)),
                count => self.list_piece(rt, &buffer[..count])?,
            }
        }
        Ok(())
    }

    /// Offers a piece, again from what was not taken, until more is asked for.
    fn list_piece(&mut self, rt: &impl Print, piece: &[u8]) -> Result<(), Failure> {
        let mut left = piece;
        // The same: only the receiver says when. No iterator of events: each packet lies in the buffer that the next call overwrites.
        for _ in 0..u64::MAX {
            let served = receiver::receive_lent(
                &mut self.hold,
                self.held,
                self.skipped,
                left,
                &mut self.out,
            )?;
            self.held = served.held;
            self.skipped = served.count;
            print_line(
                rt,
                &lines::event_line(served.skipped, served.event, &self.out),
            )?;
            if served.event == Event::More {
                break;
            }
            left = &left[served.taken.min(left.len())..];
        }
        Ok(())
    }
}

/// Writes a line by one call.
#[inline(always)]
fn print_line(rt: &impl Print, line: &[u8]) -> Result<(), Failure> {
    rt.write_all(line).map_err(Failure::Output)
}

fn main(rt: HostRuntime) {
    if let Err(failure) = Listing::fresh().list(&rt, &mut rt.stdin()) {
        let _ = eprintln!(rt; "listing: {failure}");
    }
}
