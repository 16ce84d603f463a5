// The test of its arguments: used where a record is tested.
ghost use Rattle.std.specs.Prelude.{◌≡◌, length};
ghost use Rattle.rules.specs.Operators.Adapt.{is_code, is_adapt};
ghost use Rattle.adapt.specs.Arguments.{are_factors};

use numbers::{Kind, are_of, is_minus, is_order, size_of};

// Is x the code of a factor's size?
pub fn is_code(x: i32) -> bool
    ensures { result ≡ is_code x }
{
    let m = size_of(x);
    !is_minus(x) && m != 4 && m <= 7
}

// The codes of four factors' sizes: the first two alike, the others 0.
fn are_factors(l: &[i32]) -> bool
    requires { length l.now ≡ 4 }
    ensures { result ≡ are_factors l.now }
{
    let first = l[0];
    let second = l[1];
    is_code(first)
        && is_code(second)
        && size_of(second) == size_of(first)
        && are_of(Kind::Zero, &l[2..])
}

// An order of four, and the codes of four factors' sizes.
pub fn is_adapt(l: &[i32]) -> bool
    ensures { result ≡ is_adapt l.now }
{
    l.len() == 8 && is_order(&l[..4]) && are_factors(&l[4..])
}
