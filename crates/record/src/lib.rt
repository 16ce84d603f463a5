// A step record: made in one place, tested, and what it does; and the order in which the steps of a table run. What the rest of
// the house knows of an operator is its line in a match.
#![tactic(auto)]

mod acts;
mod arguments;
mod order;
mod step;
mod tests;

pub use acts::{act_of, is_omitted};
pub use arguments::is_args;
pub use order::visited_of;
pub use step::{NO_SPAN, blank, in_reading, spanned, step_of};
pub use tests::{end_of, good_in, made, refusal18};
