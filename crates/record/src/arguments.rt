// The arguments that a preparation gives each operator.
ghost use Rattle.std.specs.Prelude.{◌≡◌};
ghost use Rattle.rules.specs.Operators.Table.{is_args, operator_of};

use adapt::{is_adapt, is_documented};
use axisswap::is_order;
use pushpop::is_rising;
use rules::{AXISSWAP, DOCUMENTED, POP, PUSH, STACK_DROP, STACK_PUSH};

// Does l keep the rule of that operator?
pub fn is_args(operator: u8, l: &[i32]) -> bool
    ensures { result ≡ is_args (operator_of operator) l.now }
{
    match operator {
        PUSH | POP => is_rising(l),
        STACK_PUSH..=STACK_DROP => stack::is_args(operator, l),
        AXISSWAP => is_order(l),
        DOCUMENTED => is_documented(l),
        _ => is_adapt(l),
    }
}
