// The operators `push` and `pop`: their keys, the test of their arguments, what they do to a list of coordinates and to
// signed places, and their text.
#![tactic(auto)]

mod acts;
mod arguments;
mod coords;
mod keys;
mod places;
mod writing;

pub use acts::act_of;
pub use arguments::is_rising;
pub use coords::{pop, push};
pub use keys::kind_of;
pub use places::{pop_places, push_places};
pub use writing::write_words;
