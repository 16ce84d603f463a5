// What the program `answers` says of a table's records, of a check and of a run, and the records that a request spells.
// Nothing here prepares, checks or runs.
#![tactic(auto)]

mod checks;
mod records;
mod runs;
mod spelled;

pub use checks::say_foretold;
pub use records::{MOST_STEPS, first, is_untouched, say_table, untouched};
pub use runs::{UNTOUCHED_NUMBER, say_ran};
pub use spelled::read_rows;
