// The step table that a request is on: of a text that is prepared, or of records that the request spells.
use crate::ask::Unanswered;
use crate::marks::Way;
use crate::prepares::{Given, prepared};
use answers_steps::{MOST_STEPS, read_rows};
use answers_wire::read_text;

// Where the table comes from: a text, and the way in which it is prepared, or records.
#[derive(Clone, Copy, Drop)]
pub enum Source {
    Text(Way),
    Rows,
}

// The table that a field spells: of a text, which is prepared into the most records, or of records as they are spelled.
pub fn read_given(source: Source, field: &[u8], room: &mut [u8]) -> Result<Given, Unanswered> {
    match source {
        Source::Text(way) => {
            let text = read_text(field, room).ok_or(Unanswered::NoRequest)?;
            prepared(text, way, MOST_STEPS)
        }
        Source::Rows => {
            let table = read_rows(field).ok_or(Unanswered::NoRequest)?;
            Ok(Given { table, kept: true })
        }
    }
}
