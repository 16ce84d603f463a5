// Its words, `from` and `to`: read from a text, and the eight arguments that two of them make.
ghost use Rattle.std.specs.Prelude.{◌≡◌, map, ◌+◌, ◌≤◌, ◌<◌, length, take};
ghost use Rattle.rules.specs.Operators.Adapt.{place_in, axis, ending, word, position, output_of, angles, combined};
ghost use Rattle.adapt.specs.Words.{numbered, plain_word, word_as, word_is};

use crate::word::{Angle, Word};
use numbers::{is_minus, is_order, signed, size_of};
use text::is_same;

// The place of b among the letters, counted from 1; 0 where it is not there.
fn letter_in(b: u8, letters: &[u8]) -> usize
    ensures { result ≡ place_in 1 b letters.now }
{
    match letters.iter().position(|x| b == *x) {
        Some(i) => i + 1,
        None => 0,
    }
}

// The axis that a letter is: e n u f are axes 1 to 4, w s d p the same axes turned; another byte is none, 0. (The Rust has a
// test for such a byte, and behind it a last case that no letter reaches: laws_source/Letters.)
fn axis_of(b: u8) -> i32
    ensures { result ≡ axis b }
{
    let plain = letter_in(b, b"enuf");
    if 0 < plain {
        return signed(false, plain);
    }
    signed(true, letter_in(b, b"wsdp"))
}

// The axes of the first four bytes.
pub fn axes_of(t: &[u8]) -> [i32; 4]
    requires { 4 ≤ length t.now }
    ensures { result ≡ map axis (take 4 t.now) }
{
    [axis_of(t[0]), axis_of(t[1]), axis_of(t[2]), axis_of(t[3])]
}

// The angle that a word's ending names: none and `_rad` and `_any` are radians.
#[tactic(auto, unfolding(rules::specs::Operators::Adapt::ending, rules::specs::Text::Ascii::ascii, rules::specs::Text::Bytes::same))]
fn ending_of(t: &[u8]) -> Option<Angle>
    ensures { numbered result ≡ ending t.now }
{
    if is_same(t, b"_deg") {
        return Some(Angle::Degrees);
    }
    if is_same(t, b"_gon") {
        return Some(Angle::Gons);
    }
    let is_radians = is_same(t, b"") || is_same(t, b"_rad") || is_same(t, b"_any");
    is_radians.then_some(Angle::Radians)
}

// "four letters, each axis once, and an ending or none"
fn letters(t: &[u8]) -> Option<Word>
    ensures { word_is result ≡ plain_word t.now }
{
    if t.len() < 4 {
        return None;
    }
    let axes = axes_of(t);
    if !is_order(&axes) {
        return None;
    }
    let angle = ending_of(&t[4..])?;
    Some(Word { axes, angle })
}

// "words .. as the source has them, `pass` included"
pub fn word_of(t: &[u8]) -> Option<Word>
    ensures { word_is result ≡ word t.now }
{
    if is_same(t, b"pass") {
        return letters(b"enuf");
    }
    letters(t)
}

// Which place of l holds a number of that size, counted from 1; 0 where none does.
pub fn position_of(size: usize, l: &[i32]) -> usize
    ensures { result ≡ position 1 size l.now }
{
    match l.iter().position(|x| size == size_of(*x)) {
        Some(i) => i + 1,
        None => 0,
    }
}

// post[i] with the sign of mult[i], i counted from 0: the place among the axes of `from` that holds axis i of `to`; turned
// where the axis at i is turned in one word and not in the other.
fn output(from: Word, to: Word, i: usize) -> i32
    requires { i < 4 }
    ensures { result ≡ output_of (word_as from) (word_as to) (i + 1) }
{
    let a = from.axes;
    let b = to.axes;
    let place = position_of(size_of(b[i]), &a);
    signed(is_minus(a[i]) != is_minus(b[i]), place)
}

// The code of the factor that goes from one angle to the other, 0 where they are the same.
pub fn code_of(from: Word, to: Word) -> i32
    ensures { result ≡ angles (word_as from) (word_as to) }
{
    if from.angle == to.angle {
        return 0;
    }
    3 * from.angle as i32 + to.angle as i32
}

// The eight arguments that two words make: the four outputs, and the codes of their factors (an angle stands in the first
// two numbers).
pub fn combined(from: Word, to: Word) -> [i32; 8]
    ensures { result ≡ combined (word_as from) (word_as to) }
{
    let o1 = output(from, to, 0);
    let o2 = output(from, to, 1);
    let o3 = output(from, to, 2);
    let o4 = output(from, to, 3);
    let code = code_of(from, to);
    [o1, o2, o3, o4, code, code, 0, 0]
}
