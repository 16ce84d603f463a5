// The test of an order: used where a step is prepared, and where a record is tested.
ghost use Rattle.std.specs.Prelude.{◌≡◌};
ghost use Rattle.rules.specs.Text.Lists.{all_of, any_of};
ghost use Rattle.rules.specs.Operators.Arguments.{is_distinct, is_order};
ghost use Rattle.numbers.specs.Order.{of_size, up_to};

use crate::signs::size_of;

// Is every size in l from 1 to n?
fn are_up_to(n: usize, l: &[i32]) -> bool
    ensures { result ≡ all_of (up_to n) l.now }
{
    l.iter().all(|x| {
        let m = size_of(*x);
        1 <= m && m <= n
    })
}

// Is there one in l of that size?
fn is_among(m: usize, l: &[i32]) -> bool
    ensures { result ≡ any_of (of_size m) l.now }
{
    l.iter().any(|x| size_of(*x) == m)
}

// Is no size in l repeated?
fn is_distinct(l: &[i32]) -> bool
    ensures { result ≡ is_distinct l.now }
{
    for (i, x) in l.iter().enumerate() {
        if is_among(size_of(*x), &l[i + 1..]) {
            return false;
        }
    }
    true
}

// At least one, at most four, sizes from 1 to the length, none repeated.
pub fn is_order(l: &[i32]) -> bool
    ensures { result ≡ is_order l.now }
{
    let n = l.len();
    1 <= n && n <= 4 && are_up_to(n, l) && is_distinct(l)
}
