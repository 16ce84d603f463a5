// The words of a PROJ text: the text cleaned, cut into steps and words, and the words of a step once `proj=` has changed places with the
// first. The Rust is the first half of `parse_proj` of src/token/mod.rs.
#![tactic(auto)]

mod clean;
mod exchange;
mod steps;
mod walk;

pub use clean::clean_into;
pub use exchange::{Exchanged, Head, Key, has_key, head_of, is_inv, key_of, marks_of};
pub use steps::{SplitSteps, Step};
pub use walk::next_proj;
