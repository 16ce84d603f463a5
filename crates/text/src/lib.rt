// Passes over texts, into buffers that the caller lends, and places in a text: what src/token/mod.rs has from Rust's own strings. A pass
// writes from the first byte of its buffer on (`put`: from a place), leaves the rest of it as it was, and returns the place after what it
// wrote. What a pass makes of a text is a definition of `rules`.
#![tactic(auto)]

mod copy;
mod domain;
mod ends;
mod modifiers;
mod runs;
mod search;
mod white;

pub use copy::{hand_out, put, replace_from, replace_into};
pub use domain::tested;
pub use ends::{Edge, start_of, trim};
pub use modifiers::{is_lead, lead_end};
pub use runs::{Kind, is_blank, is_same, run_end};
pub use search::{find, starts_at};
pub use white::squeeze_into;
