// Copying, handing an answer out, and replacing each of one text by another: Rust's `replace`.
ghost use Rattle.std.specs.Prelude.{◌≡◌, ◌++◌, ◌+◌, ◌<◌, ◌≤◌, length, take};
ghost use Rattle.rules.specs.Text.Bytes.{replace};
ghost use Rattle.rules.specs.Text.Refusal.{answers, Lends};
ghost use Rattle.text.specs.Wrote.{Wrote};
ghost use Rattle.text.specs.Places.{ahead};

use crate::search::find;
use rules::{NO_ROOM, Refusal};

// Puts all of src into dst from at.
// Stays: `copy_from_slice` makes the library for C need `memmove` from outside, besides `memcpy` and `memset`.
pub fn put(src: &[u8], dst: &mut [u8], at: usize) -> usize
    requires { at + length src.now ≤ length dst.old }
    ensures { Wrote (take at dst.old ++ src.now) dst.old result dst.new }
{
    for (i, b) in src.iter().enumerate() {
        dst[at + i] = *b;
    }
    at + src.len()
}

// Hands a whole answer out: puts it into the lent buffer, or refuses 7.
pub fn hand_out(answer: &[u8], out: &mut [u8]) -> Result<usize, Refusal>
    ensures { Lends (answers answer.now) out.old result out.new }
{
    if out.len() < answer.len() {
        return Err(NO_ROOM);
    }
    Ok(put(answer, out, 0))
}

// Writes src with each old, of which the first stands at `first`, replaced by new. What stands between two of them is
// copied as one part.
pub fn replace_from(src: &[u8], first: usize, old: &[u8], new: &[u8], dst: &mut [u8]) -> usize
    requires nonzero { 0 < length old.now }
    requires first_value { first ≡ ahead old.now src.now }
    requires src_in_bounds { length (replace old.now new.now src.now) ≤ length dst.old }
    ensures { Wrote (replace old.now new.now src.now) dst.old result dst.new }
{
    let mut i = 0;
    let mut o = 0;
    let mut k = first;
    while k < src.len() {
        o = put(&src[i..k], dst, o);
        o = put(new, dst, o);
        i = k + old.len();
        k = find(src, i, old);
    }
    put(&src[i..k], dst, o)
}

// Writes src with each old replaced by new.
pub fn replace_into(src: &[u8], old: &[u8], new: &[u8], dst: &mut [u8]) -> usize
    requires nonzero { 0 < length old.now }
    requires src_in_bounds { length (replace old.now new.now src.now) ≤ length dst.old }
    ensures { Wrote (replace old.now new.now src.now) dst.old result dst.new }
{
    let first = find(src, 0, old);
    replace_from(src, first, old, new, dst)
}
