// Push and pop on numbers: column by column, between every coordinate of a list and a lent store. Column q of n numbers
// stands in the store from q * n on.
ghost use Rattle.std.specs.Prelude.{◌+◌, ◌*◌, ◌≤◌, ◌/◌, length};
ghost use Rattle.rules.specs.Operators.Acts.{pushes, pops};
ghost use Rattle.rules.specs.Operators.Arguments.{places};
ghost use Rattle.columns.specs.Machine.{Acted};

use columns::{nan_column, pop_column, push_column};
use numbers::size_of;

// Push: a column for each place, in their order.
pub fn push(xs: &[f64], store: &mut [f64], depth: usize, args: &[i32])
    requires depth_bound { depth ≤ 64 }
    requires args_len_bound { length args.now ≤ 8 }
    requires xs_in_bounds { (length args.now + depth) * (length xs.now / 4) ≤ length store.old }
    ensures { Acted (pushes (places args.now)) depth xs.now store.old xs.now store.new }
{
    let n = xs.len() / 4;
    for (j, x) in args.iter().enumerate() {
        let at = (depth + j) * n;
        push_column(xs, &mut store[at..at + n], size_of(*x));
    }
}

// Pop: the top column into each place, in their order; where the columns end too soon, the next place becomes NaN, and the
// step stops.
pub fn pop(xs: &mut [f64], store: &[f64], depth: usize, args: &[i32])
    requires { depth * (length xs.old / 4) ≤ length store.now }
    ensures { Acted (pops (places args.now)) depth xs.old store.now xs.new store.now }
{
    let n = xs.len() / 4;
    for (j, x) in args.iter().enumerate() {
        let i = size_of(*x);
        if depth <= j {
            nan_column(xs, i);
            return;
        }
        let at = (depth - 1 - j) * n;
        pop_column(xs, &store[at..at + n], i);
    }
}
