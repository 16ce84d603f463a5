// The fields of the protocol that the program `answers` speaks: a line is cut into fields, and numbers and texts
// are read. Nothing here reads or writes a file. Each function is proved safe and ending; a contract
// says beyond that what a caller needs: a number within its bound.
#![tactic(auto)]

mod line;
mod number;
mod read;
mod write;

pub use line::{field, fields, last_newline, part, parts};
pub use number::{are_numbers, count_numbers, is_all_number, read_numbers};
pub use read::{read_natural, read_signed, read_text};
pub use write::hex_digits;
