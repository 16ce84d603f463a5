// The factors of `adapt`: one angle over another, with a sign; those of a step, and whether they change anything.
ghost use Rattle.std.specs.Prelude.{◌≡◌};
ghost use Rattle.rules.specs.Text.Decimal.{minus};
ghost use Rattle.rules.specs.Operators.Arguments.{size};
ghost use Rattle.rules.specs.Operators.Numbers.{turn};
ghost use Rattle.rules.specs.Operators.Adapt.{angle, factor};
ghost use Rattle.adapt.specs.Factors.{staying, mults, overs, all_staying};

use columns::turned;
use numbers::{is_minus, size_of};
use rules::Coord;

// Stays: the number is a part of a code, which stands in a record that C fills.
// An angle in radians: 0 is 1, 1 is a degree, 2 is a gon.
fn angle_of(k: usize) -> f64
    ensures { result ≡ angle k }
{
    match k {
        0 => 1.0,
        1 => 3.141592653589793 / 180.0,
        _ => 3.141592653589793 / 200.0,
    }
}

// The factor of a code: one angle over the other.
fn factor_of(code: usize) -> f64
    ensures { result ≡ factor code }
{
    angle_of(code / 3) / angle_of(code % 3)
}

// A factor with its sign: that of the output's argument, and the size of its code.
fn mult_of(x: i32, code: i32) -> f64
    ensures { result ≡ turn (minus x) (factor (size code)) }
{
    turned(is_minus(x), factor_of(size_of(code)))
}

// Is the number at i the input's own, times 1?
fn is_staying(p: usize, m: f64, i: usize) -> bool
    ensures { result ≡ staying p m i }
{
    p == i && m == 1.0
}

// The four factors of a step.
pub fn mults_of(args: [i32; 8]) -> Coord
    ensures { result ≡ mults args }
{
    Coord {
        a: mult_of(args[0], args[4]),
        b: mult_of(args[1], args[5]),
        c: mult_of(args[2], args[6]),
        d: mult_of(args[3], args[7]),
    }
}

// 1 over each of four factors.
pub fn overs_of(m: Coord) -> Coord
    ensures { result ≡ overs m }
{
    Coord {
        a: 1.0 / m.a,
        b: 1.0 / m.b,
        c: 1.0 / m.c,
        d: 1.0 / m.d,
    }
}

// Is a step a no-op, by its four places and factors?
pub fn is_noop(p1: usize, p2: usize, p3: usize, p4: usize, m: Coord) -> bool
    ensures { result ≡ all_staying p1 p2 p3 p4 m }
{
    is_staying(p1, m.a, 1)
        && is_staying(p2, m.b, 2)
        && is_staying(p3, m.c, 3)
        && is_staying(p4, m.d, 4)
}
