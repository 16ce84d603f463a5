// Its actions on signed places: what the check does with them.
ghost use Rattle.std.specs.Prelude.{◌≡◌, true, ◌+◌, ◌*◌, ◌≤◌, ◌<◌, ◌++◌, length, take, drop};
ghost use Rattle.rules.specs.Text.Lists.{all_of};
ghost use Rattle.rules.specs.Operators.Arguments.{places};
ghost use Rattle.rules.specs.Operators.Acts.{flips, swaps, rolls};
ghost use Rattle.columns.specs.Traces.{Whole, Moved};
ghost use Rattle.numbers.specs.Axes.{is_axis};

use crate::acts::turns;
use columns::Traced;
use numbers::axis_of;
use rules::Place;

// Each place exchanged with its column, the top one first.
pub fn flip_places(t: Traced, l: &[i32]) -> Traced
    requires whole { Whole t }
    requires l_value { all_of is_axis l.now ≡ true }
    requires l_bound { t.top + length l.now ≤ 64 }
    ensures { Moved (flips (places l.now)) t result }
{
    let mut r = t;
    for (i, x) in l.iter().enumerate() {
        let k = axis_of(*x);
        let at = t.top + i;
        let p = r.tuple[k];
        r.tuple[k] = r.columns[at];
        r.columns[at] = p;
    }
    r
}

// The two top columns exchanged, if there are two.
pub fn swap_places(t: Traced) -> Traced
    requires { Whole t }
    ensures { Moved swaps t result }
{
    let top = t.top;
    if 62 < top {
        return t;
    }
    let mut r = t;
    r.columns.swap(top, top + 1);
    r
}

// The places of `from` into as many others: the first k of them behind the rest.
fn turn_into(from: &[Place], k: usize, into: &mut [Place])
    requires few { k ≤ length from.now }
    requires alike { length into.old ≡ length from.now }
    ensures { into.new ≡ drop k from.now ++ take k from.now }
{
    let (rest, first) = into.split_at_mut(from.len() - k);
    rest.copy_from_slice(&from[k..]);
    first.copy_from_slice(&from[..k]);
}

// The top column goes under the top m, n times: the first n of them go behind the others.
pub fn roll_places(t: Traced, m: usize, n: usize) -> Traced
    requires whole { Whole t }
    requires m_bound { t.top + m ≤ 64 }
    requires n_bound { n < 2 * m }
    ensures { Moved (rolls m n) t result }
{
    let top = t.top;
    let mut r = t;
    turn_into(
        &t.columns[top..top + m],
        turns(m, n),
        &mut r.columns[top..top + m],
    );
    r
}
