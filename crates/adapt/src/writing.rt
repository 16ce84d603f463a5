// Its text: the name, and the words `from` and `to`.
ghost use Rattle.std.specs.Prelude.{◌≡◌, true, map};
ghost use Rattle.rules.specs.Text.Lists.{all_of};
ghost use Rattle.text.specs.Wrote.{WroteAt};
ghost use Rattle.rules.specs.Operators.Adapt.{letter, ending_of, is_adapt};
ghost use Rattle.numbers.specs.Parts.{Room};
ghost use Rattle.numbers.specs.Axes.{is_axis};
ghost use Rattle.rules.specs.Text.Bytes.{joined};
ghost use Rattle.rules.specs.Operators.Descriptions.{Adapt};
ghost use Rattle.rules.specs.Pipeline.Write.{operator_words};
ghost use Rattle.adapt.specs.Text.{word_text, words_text};

use numbers::{axis_of, is_minus, put_byte, size_of};
use text::put;

// The letter of an axis with its sign.
fn letter(x: i32) -> u8
    requires { is_axis x ≡ true }
    ensures { result ≡ letter x }
{
    let k = axis_of(x);
    if is_minus(x) {
        return b"wsdp"[k];
    }
    b"enuf"[k]
}

// The letters of the axes in l.
fn letters(l: &[i32], out: &mut [u8], o: usize) -> usize
    requires l_value { all_of is_axis l.now ≡ true }
    requires room { Room (map letter l.now) o out.old }
    ensures { WroteAt (map letter l.now) out.old o result out.new }
{
    let mut e = o;
    for x in l {
        e = put_byte(letter(*x), out, e);
    }
    e
}

// The ending of an angle: none for radians.
// Stays: the number is a part of a code, which stands in a record that C fills.
fn ending(angle: usize, out: &mut [u8], o: usize) -> usize
    requires { Room (ending_of angle) o out.old }
    ensures { WroteAt (ending_of angle) out.old o result out.new }
{
    if angle == 0 {
        return o;
    }
    if angle == 1 {
        return put(b"_deg", out, o);
    }
    put(b"_gon", out, o)
}

// A word behind its key: the letters of its axes, and the ending of its angle.
fn word(key: &[u8], l: &[i32], angle: usize, out: &mut [u8], o: usize) -> usize
    requires l_value { all_of is_axis l.now ≡ true }
    requires room { Room (word_text key.now l.now angle) o out.old }
    ensures { WroteAt (word_text key.now l.now angle) out.old o result out.new }
{
    let a = put(key, out, o);
    let e = letters(l, out, a);
    ending(angle, out, e)
}

// The name and both words, by their axes and the code of the factor that goes from one angle to the other.
pub fn words(code: usize, from: &[i32], to: &[i32], out: &mut [u8], o: usize) -> usize
    requires from_value { all_of is_axis from.now ≡ true }
    requires to_value { all_of is_axis to.now ≡ true }
    requires room { Room (words_text code from.now to.now) o out.old }
    ensures { WroteAt (words_text code from.now to.now) out.old o result out.new }
{
    let e = word(b"adapt from=", from, code / 3, out, o);
    word(b" to=", to, code % 3, out, e)
}

// In the crate's mode `from` has the axes in their order, and `to` has the outputs.
pub fn write_words(l: &[i32], out: &mut [u8], o: usize) -> usize
    requires l_value { is_adapt l.now ≡ true }
    requires room { Room (joined (operator_words Adapt l.now)) o out.old }
    ensures { WroteAt (joined (operator_words Adapt l.now)) out.old o result out.new }
{
    let from = [1, 2, 3, 4];
    words(size_of(l[4]), &from, &l[..4], out, o)
}
