// The requests on step tables: a table is checked, run or written. A request that is new is a variant of `TableCall`, its
// word in `table_call` and its answer in `answer_table`; it is then one on a text, and with `rows-` in front one on records.
use crate::ask::Unanswered;
use crate::checks::answer_check;
use crate::given::Source;
use crate::rooms::Rooms;
use crate::runs::answer_run;
use crate::writes::answer_write;
use answers_say::Output;

#[derive(Clone, Copy, Drop)]
pub enum TableCall {
    Check,
    Run,
    Write,
}

// Which of them a word names.
pub fn table_call(word: &[u8]) -> Option<TableCall> {
    match word {
        b"check" => Some(TableCall::Check),
        b"run" => Some(TableCall::Run),
        b"write" => Some(TableCall::Write),
        _ => None,
    }
}

// The answer to a request on a table.
// Stays: cases in place of function pointers are a rule of the project.
pub fn answer_table<P: Print>(
    out: &mut Output<P>,
    call: TableCall,
    source: Source,
    line: &[u8],
    rooms: &mut Rooms,
) -> Result<(), Unanswered> {
    match call {
        TableCall::Check => answer_check(out, source, line, rooms.text),
        TableCall::Run => answer_run(out, source, line, rooms.text, rooms.list, rooms.store),
        TableCall::Write => answer_write(out, source, line, rooms.text, rooms.lent),
    }
}
