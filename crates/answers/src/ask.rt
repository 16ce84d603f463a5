// Which request a line is, and its answer. A request on a text that is new is a variant of `TextCall` and its word in
// `asked_text`; one on a table has its word in tables.rt, and a mark its letters in marks.rt.
use crate::given::Source;
use crate::marks::{Way, read_mark};
use crate::prepares::answer_prepare;
use crate::rooms::Rooms;
use crate::tables::{TableCall, answer_table, table_call};
use crate::texts::{TextCall, answer_steps, answer_text};
use answers_say::{Output, Unprepared, say_unprepared};
use answers_wire::{field, fields, part};

// Why a line is not answered as it asks: it is no request, or its text is not prepared.
#[derive(Clone, Copy, Drop)]
pub enum Unanswered {
    NoRequest,
    Unprepared(Unprepared),
}

#[derive(Clone, Copy, Drop)]
enum Request {
    Text(TextCall),
    Table(TableCall, Source),
    Prepare(Way),
    Steps,
}

// Which request a line's first field names. One that prepares a text can have a mark; no other can.
fn asked(word: &[u8]) -> Option<Request> {
    let way = read_mark(word)?;
    if let Some(call) = word.strip_prefix(b"rows-") {
        return Some(Request::Table(table_call(call)?, Source::Rows));
    }
    let name = part(word, b'/', 0);
    if name == b"prepare".as_slice() {
        return Some(Request::Prepare(way));
    }
    match table_call(name) {
        Some(call) => Some(Request::Table(call, Source::Text(way))),
        None => asked_text(word),
    }
}

// Which of those on a text.
fn asked_text(word: &[u8]) -> Option<Request> {
    match word {
        b"normalise" => Some(Request::Text(TextCall::Normalise)),
        b"split" => Some(Request::Text(TextCall::Split)),
        b"parameters" => Some(Request::Text(TextCall::Parameters)),
        b"translate" => Some(Request::Text(TextCall::Translate)),
        b"definition" => Some(Request::Text(TextCall::Definition)),
        b"steps" => Some(Request::Steps),
        _ => None,
    }
}

// Answers a line, which stands here without its newline.
pub fn answer<P: Print>(out: &mut Output<P>, line: &[u8], rooms: &mut Rooms) {
    match try_answer(out, line, rooms) {
        Ok(()) => {}
        Err(Unanswered::NoRequest) => out.say("what\n"),
        Err(Unanswered::Unprepared(refusal)) => say_unprepared(out, refusal),
    }
}

fn try_answer<P: Print>(
    out: &mut Output<P>,
    line: &[u8],
    rooms: &mut Rooms,
) -> Result<(), Unanswered> {
    match asked(field(line, 0)).ok_or(Unanswered::NoRequest)? {
        Request::Text(call) => answer_text(out, call, line, rooms.text, rooms.lent),
        Request::Table(call, source) => answer_table(out, call, source, line, rooms),
        Request::Prepare(way) => answer_prepare(out, way, line, rooms.text),
        Request::Steps => answer_steps(out, line, rooms.text),
    }
}

// A line that has `count` fields.
pub fn expect_fields(line: &[u8], count: usize) -> Result<(), Unanswered> {
    if fields(line) == count {
        Ok(())
    } else {
        Err(Unanswered::NoRequest)
    }
}
