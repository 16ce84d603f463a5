// `axisswap` on signed places: what the check does with it.
ghost use Rattle.std.specs.Prelude.{◌≡◌, true, false, ◌≤◌, length};
ghost use Rattle.rules.specs.Text.Lists.{all_of};
ghost use Rattle.rules.specs.Operators.Arguments.{is_order};
ghost use Rattle.rules.specs.Pipeline.Check.{turn_place};
ghost use Rattle.numbers.specs.Axes.{is_axis};
ghost use Rattle.axisswap.specs.Places.{Ordered};
ghost use Rattle.rules.specs.Operators.Acts.{orders};
ghost use Rattle.columns.specs.Traces.{Whole, Moved};

use columns::Traced;
use numbers::{axis_of, is_minus};
use rules::Place;

// A place with its sign turned, or kept.
fn turned(minus: bool, p: Place) -> Place
    ensures { result ≡ turn_place minus p }
{
    Place {
        axis: p.axis,
        minus: p.minus != minus,
    }
}

// Stays, beside `unordered`: the two differ in which place is read and which is written; one loop for both would ask that at each turn.
// Forward: output i is the place that the order names, with its sign.
fn ordered(tuple: [Place; 4], l: &[i32]) -> [Place; 4]
    requires tuple_len { length tuple ≡ 4 }
    requires l_value { all_of is_axis l.now ≡ true }
    requires l_len_bound { length l.now ≤ 4 }
    ensures { Ordered false l.now tuple result }
{
    let mut r = tuple;
    for (i, x) in l.iter().enumerate() {
        let k = axis_of(*x);
        let p = tuple[k];
        r[i] = turned(is_minus(*x), p);
    }
    r
}

// Back: input i goes to the place that the order names, with its sign.
fn unordered(tuple: [Place; 4], l: &[i32]) -> [Place; 4]
    requires tuple_len { length tuple ≡ 4 }
    requires l_value { all_of is_axis l.now ≡ true }
    requires l_len_bound { length l.now ≤ 4 }
    ensures { Ordered true l.now tuple result }
{
    let mut r = tuple;
    for (i, x) in l.iter().enumerate() {
        let k = axis_of(*x);
        let p = tuple[i];
        r[k] = turned(is_minus(*x), p);
    }
    r
}

// The four places reordered, forward or back.
fn reordered(tuple: [Place; 4], back: bool, l: &[i32]) -> [Place; 4]
    requires tuple_len { length tuple ≡ 4 }
    requires l_value { is_order l.now ≡ true }
    ensures { Ordered back l.now tuple result }
{
    if back {
        unordered(tuple, l)
    } else {
        ordered(tuple, l)
    }
}

// The four places of a check: its columns stay.
pub fn order_places(t: Traced, back: bool, l: &[i32]) -> Traced
    requires whole { Whole t }
    requires l_value { is_order l.now ≡ true }
    ensures { Moved (orders back l.now) t result }
{
    Traced {
        tuple: reordered(t.tuple, back, l),
        ..t
    }
}
