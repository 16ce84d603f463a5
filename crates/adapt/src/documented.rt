// The documented mode: the eight arguments that two words make, which ties sign and angle to an axis, and the test of them.
ghost use Rattle.std.specs.Prelude.{◌≡◌, ◌+◌, ◌<◌};
ghost use Rattle.rules.specs.Text.Lists.{all_of};
ghost use Rattle.rules.specs.Operators.Adapt.{is_code};
ghost use Rattle.rules.specs.Operators.Documented.{output_by_axis, angle_by_axis, combined_by_axis, is_pair, two_alike, is_documented};
ghost use Rattle.adapt.specs.Words.{word_as};

use crate::arguments::is_code;
use crate::word::Word;
use crate::words::{code_of, position_of};
use numbers::{is_minus, is_order, signed, size_of};

// Output i, counted from 0: the place among the axes of `from` that holds axis i of `to`, turned where that axis is turned in one word and
// not in the other.
fn output_by_axis(from: Word, to: Word, i: usize) -> i32
    requires { i < 4 }
    ensures { result ≡ output_by_axis (word_as from) (word_as to) (i + 1) }
{
    let a = from.axes;
    let b = to.axes;
    let place = position_of(size_of(b[i]), &a);
    let at = place - 1;
    signed(is_minus(a[at]) != is_minus(b[i]), place)
}

// The code of its factor: that of the two angles, if the axis is one of the two that carry an angle, else 0.
fn angle_by_axis(from: Word, to: Word, i: usize) -> i32
    requires { i < 4 }
    ensures { result ≡ angle_by_axis (word_as from) (word_as to) (i + 1) }
{
    if 2 < size_of(to.axes[i]) {
        return 0;
    }
    code_of(from, to)
}

// The eight arguments that two words make: the four outputs, and the codes of their factors.
pub fn combined_by_axis(from: Word, to: Word) -> [i32; 8]
    ensures { result ≡ combined_by_axis (word_as from) (word_as to) }
{
    let o1 = output_by_axis(from, to, 0);
    let o2 = output_by_axis(from, to, 1);
    let o3 = output_by_axis(from, to, 2);
    let o4 = output_by_axis(from, to, 3);
    let c1 = angle_by_axis(from, to, 0);
    let c2 = angle_by_axis(from, to, 1);
    let c3 = angle_by_axis(from, to, 2);
    let c4 = angle_by_axis(from, to, 3);
    [o1, o2, o3, o4, c1, c2, c3, c4]
}

// Are two codes alike, and the other two 0?
fn is_pair(a: usize, b: usize, c: usize, d: usize) -> bool
    ensures { result ≡ is_pair a b c d }
{
    a == b && c == 0 && d == 0
}

// Is that so of some two of the four?
fn two_alike(a: usize, b: usize, c: usize, d: usize) -> bool
    ensures { result ≡ two_alike a b c d }
{
    is_pair(a, b, c, d)
        || is_pair(a, c, b, d)
        || is_pair(a, d, b, c)
        || is_pair(b, c, a, d)
        || is_pair(b, d, a, c)
        || is_pair(c, d, a, b)
}

// An order of four, and the codes of four factors' sizes, two alike and the others 0.
pub fn is_documented(l: &[i32]) -> bool
    ensures { result ≡ is_documented l.now }
{
    if l.len() != 8 {
        return false;
    }
    if !is_order(&l[..4]) {
        return false;
    }
    if !are_codes(&l[4..]) {
        return false;
    }
    two_alike(size_of(l[4]), size_of(l[5]), size_of(l[6]), size_of(l[7]))
}

// The codes of factors' sizes.
fn are_codes(l: &[i32]) -> bool
    ensures { result ≡ all_of is_code l.now }
{
    l.iter().all(|x| is_code(*x))
}
