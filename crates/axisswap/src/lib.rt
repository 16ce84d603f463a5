// The operator `axisswap`: its key, the test of its arguments, what it does to a coordinate and to signed places, and its
// text.
#![tactic(auto)]

mod acts;
mod coords;
mod keys;
mod places;
mod writing;

pub use acts::act_of;
pub use coords::axisswap;
pub use keys::kind_of;
pub use numbers::is_order;
pub use places::order_places;
pub use writing::write_words;
