// Numbers with their signs, and lists of them, written into a lent buffer in the same way.
ghost use Rattle.std.specs.Prelude.{◌≡◌, ltb};
ghost use Rattle.text.specs.Wrote.{WroteAt};
ghost use Rattle.rules.specs.Operators.Arguments.{spelling, listing};
ghost use Rattle.numbers.specs.Parts.{Room, numbered};

use crate::digits::{put_byte, put_digits};
use crate::signs::{is_minus, size_of};

// A number, with its sign.
fn put_signed(x: i32, out: &mut [u8], o: usize) -> usize
    requires { Room (spelling x) o out.old }
    ensures { WroteAt (spelling x) out.old o result out.new }
{
    let m = size_of(x);
    if is_minus(x) {
        let e = put_byte(b'-', out, o);
        return put_digits(m, out, e);
    }
    put_digits(m, out, o)
}

// Number i of a list, with its sign, after a comma if it is not the first.
fn put_next(i: usize, x: i32, out: &mut [u8], o: usize) -> usize
    requires { Room (numbered (ltb 0 i) x) o out.old }
    ensures { WroteAt (numbered (ltb 0 i) x) out.old o result out.new }
{
    if 0 < i {
        let e = put_byte(b',', out, o);
        return put_signed(x, out, e);
    }
    put_signed(x, out, o)
}

// The numbers of l with a comma between.
pub fn put_list(l: &[i32], out: &mut [u8], o: usize) -> usize
    requires { Room (listing l.now) o out.old }
    ensures { WroteAt (listing l.now) out.old o result out.new }
{
    let mut e = o;
    for (i, x) in l.iter().enumerate() {
        e = put_next(i, *x, out, e);
    }
    e
}
