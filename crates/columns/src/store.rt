// Columns of a lent store among themselves. Column q of n numbers stands in the store from q * n on.
ghost use Rattle.std.specs.Prelude.{◌≡◌, ◌+◌, ◌-◌, ◌*◌, ◌≤◌, false, ◌++◌, length, take, drop, replicate, pos};
ghost use Rattle.std.specs.Float.{fin};
ghost use Rattle.columns.specs.Stores.{Exchanged, Reversed};

// The n numbers from a on exchanged with the n from b on.
pub fn exchange(store: &mut [f64], a: usize, b: usize, n: usize)
    requires n_bound { a + n ≤ b }
    requires n_in_bounds { b + n ≤ length store.old }
    ensures { Exchanged a b n store.old store.new }
{
    let (low, high) = store.split_at_mut(b);
    low[a..a + n].swap_with_slice(&mut high[..n]);
}

// The columns from one up to another in the opposite order.
pub fn reverse(store: &mut [f64], n: usize, from: usize, to: usize)
    requires from_le_to { from ≤ to }
    requires to_bound { to ≤ 64 }
    requires n_in_bounds { to * n ≤ length store.old }
    ensures { Reversed n from to store.old store.new }
{
    for k in 0..(to - from) / 2 {
        exchange(store, (from + k) * n, (to - 1 - k) * n, n);
    }
}

// The numbers of a store from one place up to another become zero.
pub fn zero_rest(store: &mut [f64], from: usize, to: usize)
    requires from_le_to { from ≤ to }
    requires to_in_bounds { to ≤ length store.old }
    ensures { store.new ≡ take from store.old ++ (replicate (to - from) (fin false 0 (pos 0)) ++ drop to store.old) }
{
    store[from..to].fill(0.0);
}
