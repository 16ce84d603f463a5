// A step of a translation, written or only counted, word by word. The Rust is `tidy_proj`, and what `parse_proj` does to each step, of
// src/token/mod.rs.
#![tactic(auto)]

mod element;
mod pen;
mod pipe;
mod step;

pub use pipe::Pipe;
pub use step::{globals_into, step_text};
