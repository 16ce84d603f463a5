// What it does in a direction, which `inv` has turned already.
ghost use Rattle.std.specs.Prelude.{◌≡◌, true, ◌≤◌, take};
ghost use Rattle.rules.specs.Operators.Arguments.{is_order};
ghost use Rattle.rules.specs.Operators.Descriptions.{Axisswap};
ghost use Rattle.rules.specs.Pipeline.Running.{act_of};
ghost use Rattle.columns.specs.Doings.{Does};

use columns::{Act, Doing};
use rules::Direction;

pub fn act_of(args: [i32; 8], n: usize, direction: Direction) -> Doing
    requires n_bound { n ≤ 8 }
    requires args_value { is_order (take n args) ≡ true }
    ensures { Does (act_of direction Axisswap (take n args)) result }
{
    let back = matches!(direction, Direction::Inverse);
    Doing {
        act: Act::Orders { back },
        args,
        n,
    }
}
