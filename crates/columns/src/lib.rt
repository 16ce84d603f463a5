// What the steps of a run move: the numbers of coordinates in a list, and the columns of a lent store; and what those of a
// check move: signed places. Also the acts that move them, and the depth before and after each.
#![tactic(auto)]

mod acts;
mod column;
mod coordinate;
mod depths;
mod four;
mod slots;
mod store;
mod traced;

pub use acts::{Act, Doing, reversed};
pub use column::{each_coord, flip_column, nan_all, nan_column, pop_column, push_column};
pub use coordinate::{get_coord, set_coord, turned};
pub use depths::{counts_none, depth_after, takes};
pub use four::Slots;
pub use slots::{pick, place, slots_of};
pub use store::{exchange, reverse, zero_rest};
pub use traced::Traced;
