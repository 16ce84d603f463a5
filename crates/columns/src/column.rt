// A list of tuples, one after the other, and one column: number i of each tuple. A tuple is read as a `Coord`, which goes by value, and is
// put back.
ghost use Rattle.std.specs.Prelude.{◌≡◌, ◌/◌, map, length};
ghost use Rattle.std.specs.Float.{nan};
ghost use Rattle.rules.specs.Operators.Numbers.{put};
ghost use Rattle.rules.specs.Pipeline.Tuples.{tuples, column, stored};
ghost use Rattle.rules.specs.declared.Coord.{Coord};
ghost use Rattle.columns.specs.Coords.{no_tuple};

use crate::coordinate::{get_coord, no_coord, not_a_number, number_of, set_coord, with_number};
use rules::Coord;

// Every tuple becomes what f makes of it.
pub fn each_coord<F: Fn(Coord) -> Coord>(xs: &mut [f64], f: F)
    requires { F.IsAlwaysCallable f }
    ensures { (g : Coord → Coord) → ((c r : Coord) → F.post f c r → r ≡ g c) → tuples xs.new ≡ map g (tuples xs.old) }
{
    for k in 0..xs.len() / 4 {
        let c = get_coord(xs, k);
        set_coord(xs, k, f(c));
    }
}

// Number i of every tuple into a column.
pub fn push_column(xs: &[f64], into: &mut [f64], i: usize)
    requires { length into.old ≡ length xs.now / 4 }
    ensures { into.new ≡ column i (tuples xs.now) }
{
    for (k, x) in into.iter_mut().enumerate() {
        *x = number_of(get_coord(xs, k), i);
    }
}

// A column's numbers into number i of every tuple.
pub fn pop_column(xs: &mut [f64], from: &[f64], i: usize)
    requires { length from.now ≡ length xs.old / 4 }
    ensures { tuples xs.new ≡ stored i from.now (tuples xs.old) }
{
    for (k, x) in from.iter().enumerate() {
        let c = get_coord(xs, k);
        set_coord(xs, k, with_number(c, i, *x));
    }
}

// Number i of every tuple and a column's numbers exchanged.
pub fn flip_column(xs: &mut [f64], with: &mut [f64], i: usize)
    requires { length with.old ≡ length xs.old / 4 }
    ensures tuples { tuples xs.new ≡ stored i with.old (tuples xs.old) }
    ensures column { with.new ≡ column i (tuples xs.old) }
{
    for (k, x) in with.iter_mut().enumerate() {
        let c = get_coord(xs, k);
        set_coord(xs, k, with_number(c, i, *x));
        *x = number_of(c, i);
    }
}

// Number i of every tuple becomes NaN.
pub fn nan_column(xs: &mut [f64], i: usize)
    ensures { tuples xs.new ≡ map (put i nan) (tuples xs.old) }
{
    each_coord(xs, |c| with_number(c, i, not_a_number()));
}

// Every number of every tuple becomes NaN.
pub fn nan_all(xs: &mut [f64])
    ensures { tuples xs.new ≡ map (λ _. no_tuple) (tuples xs.old) }
{
    each_coord(xs, |_| no_coord());
}
