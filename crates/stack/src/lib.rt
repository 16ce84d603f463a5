// The operator `stack`: its seven actions; their keys, the tests of their arguments, what they do to a list of coordinates
// and to signed places, and their text.
#![tactic(auto)]

mod acts;
mod arguments;
mod coords;
mod keys;
mod places;
mod writing;

pub use acts::act_of;
pub use arguments::is_args;
pub use coords::{flip, pop_all, roll, swap};
pub use keys::kind_of;
pub use places::{flip_places, roll_places, swap_places};
pub use writing::write_words;
