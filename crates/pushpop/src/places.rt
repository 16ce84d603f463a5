// Push and pop on signed places: what the check does with them.
ghost use Rattle.std.specs.Prelude.{◌≡◌, true, ◌+◌, ◌≤◌, length};
ghost use Rattle.rules.specs.Text.Lists.{all_of};
ghost use Rattle.rules.specs.Operators.Arguments.{places};
ghost use Rattle.rules.specs.Operators.Acts.{pushes, pops};
ghost use Rattle.columns.specs.Traces.{Whole, Moved};
ghost use Rattle.numbers.specs.Axes.{is_axis};

use columns::Traced;
use numbers::axis_of;

// A column for each place, in their order.
pub fn push_places(t: Traced, l: &[i32]) -> Traced
    requires whole { Whole t }
    requires l_value { all_of is_axis l.now ≡ true }
    requires l_len_bound { length l.now ≤ t.top }
    ensures { Moved (pushes (places l.now)) t result }
{
    let mut r = t;
    for x in l {
        let at = r.top - 1;
        r.columns[at] = r.tuple[axis_of(*x)];
        r.top = at;
    }
    r
}

// A column into each place, in their order.
pub fn pop_places(t: Traced, l: &[i32]) -> Traced
    requires whole { Whole t }
    requires l_value { all_of is_axis l.now ≡ true }
    requires l_bound { t.top + length l.now ≤ 64 }
    ensures { Moved (pops (places l.now)) t result }
{
    let mut r = t;
    for x in l {
        r.tuple[axis_of(*x)] = r.columns[r.top];
        r.top += 1;
    }
    r
}
