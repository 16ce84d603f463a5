// What it does in a direction, which `inv` has turned already.
ghost use Rattle.std.specs.Prelude.{◌≡◌, true, ◌≤◌, take};
ghost use Rattle.rules.specs.Operators.Documented.{is_adapt_in, adapt_in};
ghost use Rattle.rules.specs.Pipeline.Running.{act_of};
ghost use Rattle.columns.specs.Doings.{Does};

use columns::{Act, Doing};
use rules::{Direction, Mode};

pub fn act_of(args: [i32; 8], n: usize, direction: Direction, mode: Mode) -> Doing
    requires n_bound { n ≤ 8 }
    requires args_value { is_adapt_in mode (take n args) ≡ true }
    ensures { Does (act_of direction (adapt_in mode) (take n args)) result }
{
    let back = matches!(direction, Direction::Inverse);
    Doing {
        act: Act::Adapts { mode, back },
        args,
        n,
    }
}
