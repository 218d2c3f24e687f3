//! What a received packet is to the exchange table, and the step that the table takes by it.
#![tactic(auto)]

ghost use Rattle.std.specs.Prelude.{◌≡◌};
ghost use Rattle.kinds.specs.Table.{rows};
ghost use Rattle.verdict.specs.Orders.{is_good, told};
ghost use Rattle.taking.specs.Roles.{asked, heard_told};
ghost use Rattle.taking.specs.Takes.{role_in, heard_as, taken};

use exchange::{Address, Exchanges, Replied};
use place::Reply;
use verdict::{Refused, Verdict};

/// The table after a received packet.
#[tactic(auto, using(crate::proofs::Taking::takes))]
pub fn take(table: Exchanges, p: &[u8]) -> Replied
    ensures { result ≡ taken rows table p.now }
{
    match hear(p) {
        Ok(Some(reply)) => {
            let source = Address {
                bytes: octets::six_at(p, 12),
            };
            table.reply(source, octets::two_at(p, 2), reply)
        }
        Ok(None) => table.untold(Verdict::good()),
        Err(refused) => table.untold(Verdict::from(refused)),
    }
}

/// What a packet is to the table: a reply of one of four kinds, none, or what it is refused for. Frame and content are judged once each.
#[tactic(auto, using(crate::proofs::Taking::hearing))]
fn hear(p: &[u8]) -> Result<Option<Reply>, Refused>
    ensures { heard_told result ≡ asked (heard_as rows p.now) }
{
    frame::judge_frame(p)?;
    role_in(packet::judge_content(p), octets::byte_at(p, 26))
}

/// What a packet of a good frame is, by what the judge says of its content and by its command.
#[tactic(auto, using(crate::proofs::Taking::refused_bad), unfolding(crate::specs::Takes::role_in))]
fn role_in(content: Result<(), Refused>, command: u8) -> Result<Option<Reply>, Refused>
    ensures { heard_told result ≡ asked (record { verdict = told content; role = role_in (is_good (told content)) command }) }
{
    match (content, command) {
        (Ok(()), 3) => Ok(Some(Reply::Confirm)),
        (Ok(()), 5) => Ok(Some(Reply::Answer)),
        (Ok(()), 6) => Ok(Some(Reply::Deny)),
        (Ok(()), _) => Ok(None),
        (Err(_), 5) => Ok(Some(Reply::BadAnswer)),
        (Err(refused), _) => Err(refused),
    }
}
