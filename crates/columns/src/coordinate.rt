// One coordinate, and a list of them: the numbers by their place. Places count from 1, slots from 0.
ghost use Rattle.std.specs.Prelude.{◌≡◌, ◌+◌, ◌*◌, ◌≤◌, length, get_or, set};
ghost use Rattle.std.specs.Float.{nan};
ghost use Rattle.rules.specs.Operators.Numbers.{number, put, turn};
ghost use Rattle.rules.specs.Pipeline.Tuples.{tuples};
ghost use Rattle.columns.specs.Coords.{no_tuple};

use rules::Coord;

// Not a number.
pub fn not_a_number() -> f64
    ensures { result ≡ nan }
{
    0.0 / 0.0
}

// x with its sign turned, or kept.
pub fn turned(turns: bool, x: f64) -> f64
    ensures { result ≡ turn turns x }
{
    if turns { -x } else { x }
}

// Number i of a coordinate.
pub fn number_of(c: Coord, i: usize) -> f64
    ensures { result ≡ number i c }
{
    match i {
        1 => c.a,
        2 => c.b,
        3 => c.c,
        _ => c.d,
    }
}

// The coordinate with x as its number i.
pub fn with_number(c: Coord, i: usize, x: f64) -> Coord
    ensures { result ≡ put i x c }
{
    match i {
        1 => Coord { a: x, ..c },
        2 => Coord { b: x, ..c },
        3 => Coord { c: x, ..c },
        _ => Coord { d: x, ..c },
    }
}

// A coordinate of four NaN.
pub fn no_coord() -> Coord
    ensures { result ≡ no_tuple }
{
    let x = not_a_number();
    Coord {
        a: x,
        b: x,
        c: x,
        d: x,
    }
}

// The coordinate at i of a list, counted from 0.
pub fn get_coord(xs: &[f64], i: usize) -> Coord
    requires { i * 4 + 4 ≤ length xs.now }
    ensures { result ≡ get_or (tuples xs.now) i no_tuple }
{
    let k = i * 4;
    Coord {
        a: xs[k],
        b: xs[k + 1],
        c: xs[k + 2],
        d: xs[k + 3],
    }
}

// A coordinate stored at i of a list.
pub fn set_coord(xs: &mut [f64], i: usize, v: Coord)
    requires { i * 4 + 4 ≤ length xs.old }
    ensures { tuples xs.new ≡ set (tuples xs.old) i v }
{
    let k = i * 4;
    xs[k] = v.a;
    xs[k + 1] = v.b;
    xs[k + 2] = v.c;
    xs[k + 3] = v.d;
}
