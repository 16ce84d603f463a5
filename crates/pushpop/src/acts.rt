// What they do in a direction.
ghost use Rattle.std.specs.Prelude.{◌≡◌, true, ◌≤◌, take};
ghost use Rattle.rules.specs.Operators.PushPop.{is_rising};
ghost use Rattle.rules.specs.Operators.Table.{operator_of};
ghost use Rattle.rules.specs.Pipeline.Running.{act_of};
ghost use Rattle.columns.specs.Doings.{Does};
ghost use Rattle.pushpop.specs.Acts.{pushing};

use columns::{Act, Doing, reversed};
use rules::{Direction, POP, PUSH};

// "`push`: flags in order 1 to 4"; "`pop`: 4 to 1"
fn act(pushes: bool, args: [i32; 8], n: usize) -> Doing
    requires n_bound { n ≤ 8 }
    requires args_value { is_rising 0 (take n args) ≡ true }
    ensures { Does (pushing pushes (take n args)) result }
{
    if pushes {
        Doing {
            act: Act::Pushes,
            args,
            n,
        }
    } else {
        Doing {
            act: Act::Pops,
            args: reversed(args, n),
            n,
        }
    }
}

// "Inverse push is pop with arguments reversed, and the other way round."
// Stays: the number of the operator stands in a record, which C fills.
pub fn act_of(operator: u8, args: [i32; 8], n: usize, direction: Direction) -> Doing
    requires operator_bound { operator ≤ 1 }
    requires n_bound { n ≤ 8 }
    requires args_value { is_rising 0 (take n args) ≡ true }
    ensures { Does (act_of direction (operator_of operator) (take n args)) result }
{
    match direction {
        Direction::Forward => act(operator == PUSH, args, n),
        Direction::Inverse => act(operator == POP, args, n),
    }
}
