// The text of `adapt` in the documented mode: e and n stand in `from` where the angle does, and `to` has the same axes at the outputs.
ghost use Rattle.std.specs.Prelude.{◌≡◌, true, ◌&&◌, map, eqb, length};
ghost use Rattle.rules.specs.Text.Lists.{all_of};
ghost use Rattle.rules.specs.Text.Bytes.{joined};
ghost use Rattle.rules.specs.Operators.Adapt.{axis};
ghost use Rattle.rules.specs.Operators.Documented.{is_documented, code_from, letters_for, letters_from, code_of};
ghost use Rattle.rules.specs.Operators.Descriptions.{Documented};
ghost use Rattle.rules.specs.Pipeline.Write.{operator_words};
ghost use Rattle.text.specs.Wrote.{WroteAt};
ghost use Rattle.numbers.specs.Parts.{Room};
ghost use Rattle.numbers.specs.Axes.{is_axis};
ghost use Rattle.adapt.specs.Text.{axis_from};

use crate::words::{axes_of, position_of};
use crate::writing::words;
use numbers::{axis_of, is_minus, signed, size_of};

// Are both 0?
fn both_zero(a: usize, b: usize) -> bool
    ensures { result ≡ (eqb a 0 && eqb b 0) }
{
    a == 0 && b == 0
}

// The axes of `from`, by the codes of the four input places.
fn axes_for(a: usize, b: usize, c: usize, d: usize) -> [i32; 4]
    ensures { result ≡ map axis (letters_for a b c d) }
{
    if both_zero(c, d) {
        return axes_of(b"enuf");
    }
    if both_zero(b, d) {
        return axes_of(b"eunf");
    }
    if both_zero(b, c) {
        return axes_of(b"eufn");
    }
    if both_zero(a, d) {
        return axes_of(b"uenf");
    }
    if both_zero(a, c) {
        return axes_of(b"uefn");
    }
    axes_of(b"ufen")
}

// The code of the output that takes input place p.
fn code_from(l: &[i32], p: usize) -> usize
    requires { length l.now ≡ 8 }
    ensures { result ≡ code_from l.now p }
{
    size_of(l[3 + position_of(p, &l[..4])])
}

// The axes of `from`.
fn axes_from(l: &[i32]) -> [i32; 4]
    requires { length l.now ≡ 8 }
    ensures { result ≡ map axis (letters_from l.now) }
{
    axes_for(
        code_from(l, 1),
        code_from(l, 2),
        code_from(l, 3),
        code_from(l, 4),
    )
}

// The axis of an output: that of the input place which it takes, or the same turned.
fn axis_from(from: &[i32], x: i32) -> i32
    requires from_len { length from.now ≡ 4 }
    requires from_value { all_of is_axis from.now ≡ true }
    requires x_value { is_axis x ≡ true }
    ensures { result ≡ axis_from from.now x }
{
    signed(is_minus(x), size_of(from[axis_of(x)]))
}

// The axes of `to`: those of the outputs.
fn axes_to(from: &[i32], l: &[i32]) -> [i32; 4]
    requires from_len { length from.now ≡ 4 }
    requires from_value { all_of is_axis from.now ≡ true }
    requires l_value { all_of is_axis l.now ≡ true }
    requires l_len { length l.now ≡ 4 }
    ensures { result ≡ map (axis_from from.now) l.now }
{
    [
        axis_from(from, l[0]),
        axis_from(from, l[1]),
        axis_from(from, l[2]),
        axis_from(from, l[3]),
    ]
}

// The one code that is not 0, if there is one.
fn code_in(l: &[i32]) -> usize
    requires { length l.now ≡ 8 }
    ensures { result ≡ code_of l.now }
{
    let front = size_of(l[4]).max(size_of(l[5]));
    front.max(size_of(l[6]).max(size_of(l[7])))
}

// The name and both words.
pub fn write_documented(l: &[i32], out: &mut [u8], o: usize) -> usize
    requires l_value { is_documented l.now ≡ true }
    requires room { Room (joined (operator_words Documented l.now)) o out.old }
    ensures { WroteAt (joined (operator_words Documented l.now)) out.old o result out.new }
{
    let from = axes_from(l);
    let to = axes_to(&from, &l[..4]);
    words(code_in(l), &from, &to, out, o)
}
