// `prepare`: the text is prepared into a lent table, and its records are said.
use crate::ask::{Unanswered, expect_fields};
use crate::marks::Way;
use answers_say::{Output, Unprepared};
use answers_steps::{MOST_STEPS, first, is_untouched, say_table, untouched};
use answers_wire::{field, read_natural, read_text};
use prepare::prepare_as;
use rules::Table;

// A table, and whether what was lent to make it was kept.
#[derive(Clone, Copy, Drop)]
pub struct Given {
    pub table: Table,
    pub kept: bool,
}

// Prepares a text, in a reading and a mode, into a lent row of `room` records.
pub fn prepared(text: &[u8], way: Way, room: usize) -> Result<Given, Unanswered> {
    let made = prepare_as(text, way.reading, way.mode, untouched(room));
    match made.answer {
        Ok(count) => Ok(Given {
            table: first(&made.table, count),
            kept: is_untouched(&made.table, count, room),
        }),
        Err(refusal) => Err(Unanswered::Unprepared(Unprepared {
            refusal,
            kept: is_untouched(&made.table, 0, room),
        })),
    }
}

// `prepare ROOM TEXT`.
pub fn answer_prepare<P: Print>(
    out: &mut Output<P>,
    way: Way,
    line: &[u8],
    text: &mut [u8; 65536],
) -> Result<(), Unanswered> {
    expect_fields(line, 3)?;
    let room = read_natural(field(line, 1), MOST_STEPS).ok_or(Unanswered::NoRequest)?;
    let text = read_text(field(line, 2), text).ok_or(Unanswered::NoRequest)?;
    let given = prepared(text, way, room)?;
    say_table(out, &given.table, room, given.kept);
    Ok(())
}
