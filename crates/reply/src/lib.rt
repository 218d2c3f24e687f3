//! The reply maker.
#![tactic(auto)]

ghost use Rattle.std.specs.Prelude.{◌≡◌, Some};
ghost use Rattle.kinds.specs.Table.{rows};
ghost use Rattle.packet.specs.Headers.{header_of};
ghost use Rattle.verdict.specs.Orders.{in_order, good, told};
ghost use Rattle.reply.specs.Dues.{due_told, answer_told};
ghost use Rattle.reply.specs.Replies.{to_good, to_refused, due_to, command_for, reply_header, due_tests, answered, written_reply_as, written_reply};

use label::Label;
use packet::Header;
use verdict::{Refusal, Refused, ensure};

/// The reply that is due to a packet.
#[derive(Clone, Copy, Debug, PartialEq, Eq, Hash)]
pub enum Due {
    Confirm = 3,
    Deny = 6,
}

impl Due {
    /// The reply's command.
    #[inline]
    pub fn command(self) -> u8
        ensures { result ≡ command_for (due_told (Some self)) }
    {
        self as u8
    }
}

/// The reply to a packet, with the caller's label, to the front of a lent output; nothing is written where none is due or where it is refused.
#[tactic(auto, using(crate::proofs::Answering::answering))]
pub fn answer_to(p: &[u8], label: Label, out: &mut [u8]) -> Result<Option<Due>, Refused>
    ensures value { answer_told result ≡ answered rows p.now label out.old }
    ensures out_after { out.new ≡ written_reply rows p.now label out.old }
{
    frame::judge_frame(p)?;
    let Some(due) = due_to(p) else {
        return Ok(None);
    };
    send(p, due, label, out)?;
    Ok(Some(due))
}

/// What is due to a packet whose frame is good.
#[tactic(auto, unfolding(crate::specs::Replies::due_to))]
fn due_to(p: &[u8]) -> Option<Due>
    ensures { due_told result ≡ due_to rows p.now }
{
    let command = octets::byte_at(p, 26);
    match packet::judge_content(p) {
        Ok(()) => to_good(command),
        Err(_) => to_refused(command),
    }
}

/// A request that is good gets a confirm.
fn to_good(command: u8) -> Option<Due>
    ensures { due_told result ≡ to_good command }
{
    match command {
        1 | 2 => Some(Due::Confirm),
        _ => None,
    }
}

/// What is refused gets a deny, unless it is a reply.
fn to_refused(command: u8) -> Option<Due>
    ensures { due_told result ≡ to_refused command }
{
    match command {
        3 | 5 | 6 => None,
        _ => Some(Due::Deny),
    }
}

/// A reply that is due, written to the front of a lent output: TIME of the label, then ROOM.
fn send(p: &[u8], due: Due, label: Label, out: &mut [u8]) -> Result<(), Refused>
    ensures value { told result ≡ in_order (due_tests label out.old) good }
    ensures out_after { out.new ≡ written_reply_as p.now label out.old (in_order (due_tests label out.old) good) (due_told (Some due)) }
{
    ensure(label.is_allowed(), Refusal::Time)?;
    output::write(out, header_for(p, label, due.command()), 0)
}

/// Serial and user version copied, the addresses swapped.
fn header_for(p: &[u8], label: Label, command: u8) -> Header
    ensures { result ≡ reply_header (header_of p.now) label command }
{
    let Header {
        serial,
        version,
        source,
        destination,
        ..
    } = packet::header_of(p);
    Header {
        serial,
        version,
        label,
        source: destination,
        destination: source,
        command,
    }
}
