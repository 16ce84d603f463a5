// The operator `adapt`, in its two modes: its keys and words, the test of its arguments, what it does to a coordinate, and its text. On signed
// places it does nothing: where it runs, no places are told.
#![tactic(auto)]

mod acts;
mod arguments;
mod coords;
mod documented;
mod documented_text;
mod factors;
mod keys;
mod modes;
mod word;
mod words;
mod writing;

pub use acts::act_of;
pub use arguments::is_adapt;
pub use coords::adapt;
pub use documented::is_documented;
pub use documented_text::write_documented;
pub use factors::{is_noop, mults_of};
pub use keys::kind_of;
pub use modes::{between, operator_in};
pub use word::{Angle, Word};
pub use words::word_of;
pub use writing::write_words;
