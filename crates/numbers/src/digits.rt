// A number in decimal digits, written into a lent buffer. Each function writes from a place on, leaves the rest of the buffer as it was,
// and returns the place behind what it wrote.
ghost use Rattle.std.specs.Prelude.{[], ◌∷◌, ◌≡◌, ◌+◌, ◌<◌, ◌≤◌, length};
ghost use Rattle.text.specs.Wrote.{WroteAt};
ghost use Rattle.numbers.specs.Parts.{Room};
ghost use Rattle.rules.specs.Text.Numerals.{digits};
ghost use Rattle.numbers.specs.Spelt.{Spelt};

use text::put;

// Puts one byte at o.
pub fn put_byte(b: u8, out: &mut [u8], o: usize) -> usize
    requires { Room (b ∷ []) o out.old }
    ensures { WroteAt (b ∷ []) out.old o result out.new }
{
    out[o] = b;
    o + 1
}

// The digit of a number below ten.
fn digit(n: usize) -> u8
    requires { n < 10 }
    ensures { result ≡ 48 + n }
{
    48 + n as u8
}

// Spells n at the end of a buffer of twenty bytes, the last digit first, and answers the place of the first. Twenty digits are enough for
// every number of 64 bits.
fn spell(n: usize, buf: &mut [u8; 20]) -> usize
    ensures { Spelt n buf.new result }
{
    let mut m = n;
    for k in (0..20).rev() {
        buf[k] = digit(m % 10);
        m /= 10;
        if m == 0 {
            return k;
        }
    }
    0
}

// The digits of a number.
// Stays: a `Display` writes to a formatter, which tells no place behind what it wrote; a writer of its own over the lent buffer would be longer.
pub fn put_digits(n: usize, out: &mut [u8], at: usize) -> usize
    requires { at + length (digits n) ≤ length out.old }
    ensures { WroteAt (digits n) out.old at result out.new }
{
    let mut buf = [0u8; 20];
    let k = spell(n, &mut buf);
    put(&buf[k..], out, at)
}
