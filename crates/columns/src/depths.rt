// How many columns an act takes, how many there are after it, and whether it counts none of the tuples.
ghost use Rattle.std.specs.Prelude.{◌≡◌, ◌≤◌};
ghost use Rattle.rules.specs.Pipeline.Columns.{takes};
ghost use Rattle.rules.specs.Pipeline.Tuples.{counts_none};
ghost use Rattle.laws_steps.specs.Depth.{depth_after};
ghost use Rattle.columns.specs.Doings.{doing};

use crate::acts::{Act, Doing};

// How many columns an act takes.
pub fn takes(d: Doing) -> usize
    requires { d.n ≤ 8 }
    ensures { result ≡ takes (doing d) }
{
    match d.act {
        Act::Pops | Act::PopsAll | Act::Flips => d.n,
        Act::Rolls { m, n: _ } => m,
        _ => 0,
    }
}

// How many columns there are after it.
pub fn depth_after(d: Doing, depth: usize) -> usize
    requires depth_bound { depth ≤ 64 }
    requires n_bound { d.n ≤ 8 }
    ensures { result ≡ depth_after (doing d) depth }
{
    let n = d.n;
    match d.act {
        Act::Pushes => n + depth,
        Act::Pops => depth.saturating_sub(n),
        Act::PopsAll => { if depth < n { depth } else { depth - n } }
        _ => depth,
    }
}

// Does it count none of the tuples?
pub fn counts_none(d: Doing, depth: usize) -> bool
    requires { d.n ≤ 8 }
    ensures { result ≡ counts_none (doing d) depth }
{
    match d.act {
        Act::Swaps => depth == 0,
        Act::Drops => true,
        _ => depth < takes(d),
    }
}
