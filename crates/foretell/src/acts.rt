// What the check makes of one act.
ghost use Rattle.std.specs.Prelude.{◌≡◌, ◌≤◌, take};
ghost use Rattle.rules.specs.Pipeline.Check.{adapting};
ghost use Rattle.columns.specs.Doings.{doing};
ghost use Rattle.columns.specs.Traces.{Moved};
ghost use Rattle.foretell.specs.Judgement.{judged, Ready};

use axisswap::order_places;
use columns::{Act, Doing, Traced, depth_after, takes};
use pushpop::{pop_places, push_places};
use stack::{flip_places, roll_places, swap_places};

// What is wrong with an act at a depth: it finds too few columns, or there are too many after it.
#[derive(Clone, Copy, Drop)]
pub enum Fault {
    Few,
    Many,
}

// How many columns there are after an act at a depth, if nothing is wrong with it.
pub fn judge(d: Doing, depth: usize) -> Result<usize, Fault>
    requires n_bound { d.n ≤ 8 }
    requires depth_bound { depth ≤ 64 }
    ensures { result ≡ judged (doing d) depth }
{
    if depth < takes(d) {
        return Err(Fault::Few);
    }
    let after = depth_after(d, depth);
    if 64 < after {
        return Err(Fault::Many);
    }
    Ok(after)
}

// Is it an `adapt` step's act?
pub fn is_adapting(d: Doing) -> bool
    ensures { result ≡ adapting (doing d) }
{
    matches!(d.act, Act::Adapts { .. })
}

// The act on signed places: it finds enough columns, and room. Adapt moves no place.
pub fn step(t: Traced, d: Doing) -> Traced
    requires ready { Ready t d.act (take d.n d.args) }
    requires n_bound { d.n ≤ 8 }
    ensures { Moved (doing d) t result }
{
    let l = &d.args[..d.n];
    match d.act {
        Act::Pushes => push_places(t, l),
        Act::Pops | Act::PopsAll => pop_places(t, l),
        Act::Flips => flip_places(t, l),
        Act::Rolls { m, n } => roll_places(t, m, n),
        Act::Swaps => swap_places(t),
        Act::Orders { back } => order_places(t, back, l),
        Act::Drops | Act::Adapts { .. } => t,
    }
}
