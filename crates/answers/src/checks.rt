// `check`: what the check says of a table is said.
use crate::ask::{Unanswered, expect_fields};
use crate::given::{Source, read_given};
use answers_say::{Output, read_direction};
use answers_steps::say_foretold;
use answers_wire::field;
use foretell::check;

// `check DIR TEXT`, `rows-check DIR ROWS`.
pub fn answer_check<P: Print>(
    out: &mut Output<P>,
    source: Source,
    line: &[u8],
    text: &mut [u8; 65536],
) -> Result<(), Unanswered> {
    expect_fields(line, 3)?;
    let direction = read_direction(field(line, 1)).ok_or(Unanswered::NoRequest)?;
    let given = read_given(source, field(line, 2), text)?;
    say_foretold(out, &check(given.table, direction), given.kept);
    Ok(())
}
