// What an argument has to be, tested: one test for each kind, and one for all of them.
ghost use Rattle.std.specs.Prelude.{◌≡◌};
ghost use Rattle.rules.specs.Text.Lists.{all_of};
ghost use Rattle.numbers.specs.Tests.{is_of};

use crate::signs::size_of;

// What an argument has to be.
#[derive(Clone, Copy, Drop)]
pub enum Kind {
    // 1 to 4
    Place,
    // at most nine digits
    NineDigits,
    Zero,
}

// Is x of that kind?
pub fn is_of(kind: Kind, x: i32) -> bool
    ensures { result ≡ is_of kind x }
{
    match kind {
        Kind::Place => 1 <= x && x <= 4,
        Kind::NineDigits => size_of(x) <= 999999999,
        Kind::Zero => x == 0,
    }
}

// Are all of l of that kind?
pub fn are_of(kind: Kind, l: &[i32]) -> bool
    ensures { result ≡ all_of (is_of kind) l.now }
{
    l.iter().all(|x| is_of(kind, *x))
}
