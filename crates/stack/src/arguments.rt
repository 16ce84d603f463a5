// The tests of its arguments: used where a step is prepared, and where a record is tested.
ghost use Rattle.std.specs.Prelude.{◌≡◌, ◌≤◌};
ghost use Rattle.rules.specs.Operators.Stack.{is_places, is_roll};
ghost use Rattle.rules.specs.Operators.Table.{operator_of, is_args};

use numbers::{Kind, are_of, is_minus, size_of};
use rules::{STACK_FLIP, STACK_POP, STACK_PUSH, STACK_ROLL, STACK_UNROLL};

// push, pop, flip: at least one place.
fn is_places(l: &[i32]) -> bool
    ensures { result ≡ is_places l.now }
{
    !l.is_empty() && are_of(Kind::Place, l)
}

// roll, unroll: m and n, m above the size of n.
fn is_roll(l: &[i32]) -> bool
    ensures { result ≡ is_roll l.now }
{
    match l {
        [m, n] => !is_minus(*m) && size_of(*n) < size_of(*m),
        _ => false,
    }
}

// The arguments of an action; swap and drop have none.
// Stays: the number of the operator stands in a record, which C fills.
pub fn is_args(operator: u8, l: &[i32]) -> bool
    requires { (2 ≤ operator) × (operator ≤ 8) }
    ensures { result ≡ is_args (operator_of operator) l.now }
{
    match operator {
        STACK_PUSH | STACK_POP | STACK_FLIP => is_places(l),
        STACK_ROLL | STACK_UNROLL => is_roll(l),
        _ => l.is_empty(),
    }
}
