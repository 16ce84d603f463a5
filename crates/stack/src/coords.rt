// Its actions on numbers: columns of a lent store exchanged with the coordinates of a list, or among themselves. Column q of n
// numbers stands in the store from q * n on. "too few columns, or fewer than m for a roll, make every number NaN"
ghost use Rattle.std.specs.Prelude.{◌≡◌, ◌*◌, ◌≤◌, ◌<◌, ◌/◌, length};
ghost use Rattle.rules.specs.Operators.Acts.{pops_all, flips, rolls, swaps};
ghost use Rattle.rules.specs.Operators.Arguments.{places};
ghost use Rattle.rules.specs.Pipeline.Columns.{rolled, flipped};
ghost use Rattle.rules.specs.Pipeline.Tuples.{tuples, on_numbers};
ghost use Rattle.columns.specs.Stores.{columns_of, Stacked};
ghost use Rattle.columns.specs.Machine.{Acted};

use crate::acts::turns;
use columns::{exchange, flip_column, nan_all, reverse};
use numbers::size_of;
use pushpop::pop;

// Pop: the top column into each place, in their order, all or none.
pub fn pop_all(xs: &mut [f64], store: &[f64], depth: usize, args: &[i32])
    requires { depth * (length xs.old / 4) ≤ length store.now }
    ensures { Acted (pops_all (places args.now)) depth xs.old store.now xs.new store.now }
{
    if depth < args.len() {
        nan_all(xs);
        return;
    }
    pop(xs, store, depth, args);
}

// Each place exchanged with its column, the top one first; there are enough.
fn flip_columns(xs: &mut [f64], store: &mut [f64], depth: usize, args: &[i32])
    requires args_len_bound { length args.now ≤ depth }
    requires xs_in_bounds { depth * (length xs.old / 4) ≤ length store.old }
    ensures { (tuples xs.new ≡ (flipped on_numbers (places args.now) (tuples xs.old) (columns_of (length xs.old / 4) depth store.old)).tuples) × Stacked (length xs.old / 4) depth (flipped on_numbers (places args.now) (tuples xs.old) (columns_of (length xs.old / 4) depth store.old)).columns store.old store.new }
{
    let n = xs.len() / 4;
    for (j, x) in args.iter().enumerate() {
        let at = (depth - 1 - j) * n;
        flip_column(xs, &mut store[at..at + n], size_of(*x));
    }
}

// Flip: the same, or every number becomes NaN.
pub fn flip(xs: &mut [f64], store: &mut [f64], depth: usize, args: &[i32])
    requires { depth * (length xs.old / 4) ≤ length store.old }
    ensures { Acted (flips (places args.now)) depth xs.old store.old xs.new store.new }
{
    if depth < args.len() {
        nan_all(xs);
        return;
    }
    flip_columns(xs, store, depth, args);
}

// The top column goes under the top m, r times. So the first r go behind the others: each part turned round, and then the
// whole.
// Stays: the last of the three turns is what must-fail/roll_unturned.edit speaks of.
fn roll_columns(store: &mut [f64], n: usize, depth: usize, m: usize, r: usize)
    requires r_le_m { (r ≤ m) × ((m ≤ depth) × (depth ≤ 64)) }
    requires n_in_bounds { depth * n ≤ length store.old }
    ensures { Stacked n depth (rolled m r (columns_of n depth store.old)) store.old store.new }
{
    reverse(store, n, depth - r, depth);
    reverse(store, n, depth - m, depth - r);
    reverse(store, n, depth - m, depth);
}

// Roll: the same n times, or every number becomes NaN.
pub fn roll(xs: &mut [f64], store: &mut [f64], depth: usize, m: usize, n: usize)
    requires depth_bound { depth ≤ 64 }
    requires n_bound { n < 2 * m }
    requires xs_in_bounds { depth * (length xs.old / 4) ≤ length store.old }
    ensures { Acted (rolls m n) depth xs.old store.old xs.new store.new }
{
    if depth < m {
        nan_all(xs);
        return;
    }
    let tuples = xs.len() / 4;
    roll_columns(store, tuples, depth, m, turns(m, n));
}

// Swap: the two top columns exchanged, where there are two.
pub fn swap(xs: &[f64], store: &mut [f64], depth: usize)
    requires { depth * (length xs.now / 4) ≤ length store.old }
    ensures { Acted swaps depth xs.now store.old xs.now store.new }
{
    if depth < 2 {
        return;
    }
    let n = xs.len() / 4;
    exchange(store, (depth - 2) * n, (depth - 1) * n, n);
}
