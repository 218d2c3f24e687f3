// Every delivered call in the form that C has it, as include/trawnosz.h declares it; crate trawnosz_c exports each under its name.
#![tactic(auto)]

ghost use Rattle.std.specs.Prelude.{◌≡◌, None};
ghost use Rattle.octets.specs.Parts.{put_at};
ghost use Rattle.kinds.specs.Table.{table, rows, length_for};
ghost use Rattle.naming.specs.Names.{letters};
ghost use Rattle.naming.specs.Fronts.{front_part};
ghost use Rattle.unit.specs.Units.{judged_unit, judged_under};
ghost use Rattle.unit.specs.Places.{object_place};
ghost use Rattle.typed.specs.Typing.{typed_object, description_place};
ghost use Rattle.objects.specs.Writing.{write_verdict, written_unit};
ghost use Rattle.objects.specs.Texts.{text_verdict, written_text};
ghost use Rattle.packet.specs.Frames.{judged_packet, unit_place};
ghost use Rattle.packet.specs.Headers.{opened_packet};
ghost use Rattle.output.specs.Writing.{packet_verdict, written_packet};
ghost use Rattle.output.specs.Objects.{object_verdict, written_object, output_text_verdict, written_output_text};
ghost use Rattle.reply.specs.Replies.{answered, written_reply};
ghost use Rattle.reading.specs.Calls.{fresh, called};
ghost use Rattle.receiver.specs.Receivers.{lent, served_of};
ghost use Rattle.devices.specs.Tables.{of_systems, of_parts, judgement, found_place, key_bytes};
ghost use Rattle.place.specs.declared.Reply.TheVariants.{Confirm, Answer, Deny, BadAnswer};
ghost use Rattle.exchange.specs.Table as exchanges;
ghost use Rattle.exchange.specs.Begins.{begun, begun_output};
ghost use Rattle.taking.specs.Takes.{taken};
ghost use Rattle.trawnosz.specs.Calls.{served_to, answer_to};
ghost use Rattle.trawnosz.specs.Releases.{release};

use devices::{Judgement, PartKey};
use exchange::{Address, Begun, Draft, Exchanges, Made, Replied, Ticked};
use fields::Fields;
use label::Label;
use packet::{Header, Opened};
use place::Reply;
use reply::Due;
use typed::Typed;
use verdict::{Part, Verdict};

// The release's number, as the file RELEASE has it.
const RELEASE: [u8; 3] = *b"1.8";

// The answer of a receiver's call.
#[repr(C)]
#[derive(Clone, Copy)]
pub struct ServedC {
    pub event: u8,
    pub length: usize,
    pub skipped: usize,
    pub taken: usize,
    pub held: usize,
    pub count: usize,
}

// What was written for a reply.
#[repr(C)]
#[derive(Clone, Copy)]
pub struct AnswerC {
    pub verdict: Verdict,
    pub command: u8,
}

#[unsafe(no_mangle)]
pub extern "C" fn trawnosz_fresh(hold: &mut [u8; 1054])
    ensures { hold.new ≡ (fresh 1024).hold }
{
    receiver::clear_lent(hold)
}

#[tactic(auto, unfolding(reading::specs::Values::told))]
#[unsafe(no_mangle)]
pub extern "C" fn trawnosz_receive(
    hold: &mut [u8; 1054],
    held: usize,
    count: usize,
    piece: &[u8],
    out: &mut [u8],
) -> ServedC
    ensures value { result ≡ served_to (served_of (called 1024 (lent hold.old held count) piece.now out.old)) }
    ensures hold_after { hold.new ≡ (called 1024 (lent hold.old held count) piece.now out.old).state.hold }
    ensures out_after { out.new ≡ (called 1024 (lent hold.old held count) piece.now out.old).out }
{
    match receiver::receive_lent(hold, held, count, piece, out) {
        Ok(s) => ServedC {
            event: s.event.number(),
            length: s.event.length(),
            skipped: s.skipped,
            taken: s.taken,
            held: s.held,
            count: s.count,
        },
        Err(refused) => ServedC {
            event: refused.refusal.number(),
            length: 0,
            skipped: 0,
            taken: 0,
            held,
            count,
        },
    }
}

#[unsafe(no_mangle)]
pub extern "C" fn trawnosz_judge_packet(p: &[u8]) -> Verdict
    ensures { result ≡ judged_packet rows p.now }
{
    Verdict::from(packet::judge(p))
}

#[unsafe(no_mangle)]
pub extern "C" fn trawnosz_read_packet(p: &[u8]) -> Opened
    ensures { result ≡ opened_packet rows p.now }
{
    packet::read(p)
}

#[unsafe(no_mangle)]
pub extern "C" fn trawnosz_find_unit(p: &[u8]) -> Part
    ensures { result ≡ unit_place rows p.now }
{
    Part::from(packet::unit_place(p))
}

#[unsafe(no_mangle)]
pub extern "C" fn trawnosz_write_packet(out: &mut [u8], header: Header, length: usize) -> Verdict
    ensures value { result ≡ packet_verdict rows out.old header length }
    ensures out_after { out.new ≡ written_packet rows out.old header length }
{
    Verdict::from(output::write(out, header, length))
}

#[unsafe(no_mangle)]
pub extern "C" fn trawnosz_write_packet_object(
    out: &mut [u8],
    length: usize,
    number: usize,
    fields: Fields,
    description: &[u8],
) -> Verdict
    ensures value { result ≡ object_verdict rows out.old length number fields description.now }
    ensures out_after { out.new ≡ written_object table out.old length number fields description.now }
{
    Verdict::from(output::write_object(out, length, number, fields, description))
}

#[unsafe(no_mangle)]
pub extern "C" fn trawnosz_write_packet_text(out: &mut [u8], text: &[u8]) -> Verdict
    ensures value { result ≡ output_text_verdict out.old text.now }
    ensures out_after { out.new ≡ written_output_text out.old text.now }
{
    Verdict::from(output::write_text(out, text))
}

#[unsafe(no_mangle)]
pub extern "C" fn trawnosz_answer_to(p: &[u8], label: Label, out: &mut [u8]) -> AnswerC
    ensures value { result ≡ answer_to (answered rows p.now label out.old) }
    ensures out_after { out.new ≡ written_reply rows p.now label out.old }
{
    match reply::answer_to(p, label, out) {
        Ok(due) => AnswerC {
            verdict: Verdict::good(),
            command: due.map_or(0, Due::command),
        },
        Err(refused) => AnswerC {
            verdict: Verdict::from(refused),
            command: 0,
        },
    }
}

#[unsafe(no_mangle)]
pub extern "C" fn trawnosz_judge_unit(u: &[u8]) -> Verdict
    ensures { result ≡ judged_unit rows None u.now }
{
    Verdict::from(unit::judge_alone(u))
}

#[unsafe(no_mangle)]
pub extern "C" fn trawnosz_judge_unit_under(u: &[u8], command: u8) -> Verdict
    ensures { result ≡ judged_under rows command u.now }
{
    Verdict::from(unit::judge_under(u, command))
}

#[unsafe(no_mangle)]
pub extern "C" fn trawnosz_unit_length(kind: u8, n: usize) -> usize
    ensures { result ≡ length_for rows kind n }
{
    kinds::length_for(kind, n)
}

#[unsafe(no_mangle)]
pub extern "C" fn trawnosz_find_object(u: &[u8], number: usize) -> Part
    ensures { result ≡ object_place rows u.now number }
{
    Part::from(unit::object_place(u, number))
}

#[unsafe(no_mangle)]
pub extern "C" fn trawnosz_read_object(u: &[u8], number: usize) -> Typed
    ensures { result ≡ typed_object table u.now number }
{
    typed::read(u, number)
}

#[unsafe(no_mangle)]
pub extern "C" fn trawnosz_find_description(u: &[u8], number: usize) -> Part
    ensures { result ≡ description_place rows u.now number }
{
    Part::from(typed::description_place(u, number))
}

#[unsafe(no_mangle)]
pub extern "C" fn trawnosz_write_object(
    u: &mut [u8],
    number: usize,
    fields: Fields,
    description: &[u8],
) -> Verdict
    ensures value { result ≡ write_verdict rows u.old number fields description.now }
    ensures u_after { u.new ≡ written_unit table u.old number fields description.now }
{
    Verdict::from(objects::write(u, number, fields, description))
}

#[unsafe(no_mangle)]
pub extern "C" fn trawnosz_write_text(out: &mut [u8], text: &[u8]) -> Verdict
    ensures value { result ≡ text_verdict out.old text.now }
    ensures out_after { out.new ≡ written_text out.old text.now }
{
    Verdict::from(objects::write_text(out, text))
}

#[unsafe(no_mangle)]
pub extern "C" fn trawnosz_exchanges_fresh(
    timeout: u8,
    resends: u8,
    first: Address,
    second: Address,
) -> Made
    ensures { result ≡ exchanges.made timeout resends first.bytes second.bytes }
{
    Exchanges::fresh(timeout, resends, first, second)
}

#[unsafe(no_mangle)]
pub extern "C" fn trawnosz_begin_and_write(
    table: Exchanges,
    centre: u8,
    out: &mut [u8],
    draft: Draft,
    length: usize,
) -> Begun
    ensures value { result ≡ begun rows table centre out.old draft length }
    ensures out_after { out.new ≡ begun_output rows table centre out.old draft length }
{
    table.begin_and_write(centre, out, draft, length)
}

#[unsafe(no_mangle)]
pub extern "C" fn trawnosz_reply_confirm(table: Exchanges, source: Address, serial: u16) -> Replied
    ensures { result ≡ exchanges.answered table source.bytes serial Confirm }
{
    table.reply(source, serial, Reply::Confirm)
}

#[unsafe(no_mangle)]
pub extern "C" fn trawnosz_reply_answer(table: Exchanges, source: Address, serial: u16) -> Replied
    ensures { result ≡ exchanges.answered table source.bytes serial Answer }
{
    table.reply(source, serial, Reply::Answer)
}

#[unsafe(no_mangle)]
pub extern "C" fn trawnosz_reply_deny(table: Exchanges, source: Address, serial: u16) -> Replied
    ensures { result ≡ exchanges.answered table source.bytes serial Deny }
{
    table.reply(source, serial, Reply::Deny)
}

#[unsafe(no_mangle)]
pub extern "C" fn trawnosz_reply_bad_answer(
    table: Exchanges,
    source: Address,
    serial: u16,
) -> Replied
    ensures { result ≡ exchanges.answered table source.bytes serial BadAnswer }
{
    table.reply(source, serial, Reply::BadAnswer)
}

#[unsafe(no_mangle)]
pub extern "C" fn trawnosz_take_packet(table: Exchanges, p: &[u8]) -> Replied
    ensures { result ≡ taken rows table p.now }
{
    taking::take(table, p)
}

#[unsafe(no_mangle)]
pub extern "C" fn trawnosz_tick(table: Exchanges) -> Ticked
    ensures { result ≡ exchanges.ticking table }
{
    table.tick()
}

#[unsafe(no_mangle)]
pub extern "C" fn trawnosz_judge_table(table: &[u8]) -> Judgement
    ensures { result ≡ judgement of_systems of_parts table.now }
{
    Judgement::from(devices::judge(table))
}

#[unsafe(no_mangle)]
pub extern "C" fn trawnosz_find_part(table: &[u8], key: PartKey) -> Part
    ensures { result ≡ found_place of_systems of_parts table.now (key_bytes key) }
{
    Part::from(devices::find_place(table, key))
}

#[unsafe(no_mangle)]
pub extern "C" fn trawnosz_name(number: u8, out: &mut [u8]) -> Part
    ensures value { result ≡ front_part (letters number) out.old }
    ensures out_after { out.new ≡ put_at out.old 0 (letters number) }
{
    Part::from(naming::write_name(number, out))
}

#[unsafe(no_mangle)]
pub extern "C" fn trawnosz_release(out: &mut [u8]) -> Part
    ensures value { result ≡ front_part release out.old }
    ensures out_after { out.new ≡ put_at out.old 0 release }
{
    // By way of a copy, which no lent row can overlap.
    let release = RELEASE;
    Part::from(naming::write_front(&release, out))
}
