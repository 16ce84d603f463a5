// The storage of a request: the text that it spells, and what is lent to the calls.

// The most bytes that are lent.
pub const MOST_ROOM: usize = 131072;

// The most numbers of a list, and of a store: 65,537 tuples, one more than a run takes.
pub const MOST_NUMBERS: usize = 262148;

// The text has room for the longest that a line can spell; of the others the last sixteen are the guard behind the most that is lent.
#[derive(Drop)]
pub struct Rooms<'a> {
    pub text: &'a mut [u8; 65536],
    pub lent: &'a mut [u8; 131088],
    pub list: &'a mut [f64; 262164],
    pub store: &'a mut [f64; 262164],
}
