// Whole numbers: the sign and the size of an argument, tests of one and of many, and numbers written in digits.
#![tactic(auto)]

mod digits;
mod lists;
mod order;
mod signs;
mod tests;

pub use digits::{put_byte, put_digits};
pub use lists::put_list;
pub use order::is_order;
pub use signs::{axis_of, is_minus, signed, size_of};
pub use tests::{Kind, are_of, is_of};
