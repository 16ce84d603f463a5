// What the program `answers` says: its output, the words that answers share, and the storage that is lent to a call. Nothing here
// calls the library.
#![tactic(auto)]

mod fields;
mod lent;
mod output;
mod words;

pub use fields::read_direction;
pub use lent::{Lent, UNTOUCHED, say_lent};
pub use output::Output;
pub use words::{Unprepared, end_line, say_refusal, say_refused, say_unprepared};
