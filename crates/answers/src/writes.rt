// `write`: the text of a table's records is said.
use crate::ask::{Unanswered, expect_fields};
use crate::given::{Source, read_given};
use crate::rooms::MOST_ROOM;
use answers_say::{Lent, Output, say_lent};
use answers_wire::field;
use write::write;

// `write TEXT`, `rows-write ROWS`: the most bytes are lent.
pub fn answer_write<P: Print>(
    out: &mut Output<P>,
    source: Source,
    line: &[u8],
    text: &mut [u8; 65536],
    lent: &mut [u8; 131088],
) -> Result<(), Unanswered> {
    expect_fields(line, 2)?;
    let given = read_given(source, field(line, 1), text)?;
    let lent = Lent::new(lent, MOST_ROOM);
    let written = write(given.table, lent.room);
    say_lent(out, written, lent);
    Ok(())
}
