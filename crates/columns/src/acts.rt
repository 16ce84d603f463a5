// The acts: what a step does, once its direction is settled. Run and check both go by them. "Action names and function
// pointers become cases".
ghost use Rattle.std.specs.Prelude.{◌≡◌, reverse, ◌≤◌, take};

use rules::Mode;

// The places, the order or the arguments of `adapt` stand beside it, in `Doing`.
#[derive(Clone, Copy, Drop)]
pub enum Act {
    // a column for each place, in their order
    Pushes,
    // the operator `pop`: a column into each place, in their order, one after the other
    Pops,
    // the action `pop`: the same, all or none
    PopsAll,
    // each place exchanged with its column, the top one first
    Flips,
    // the top column goes under the top m, n times
    Rolls { m: usize, n: usize },
    Swaps,
    Drops,
    // each tuple reordered, or adapted in a mode, forward or back
    Orders { back: bool },
    Adapts { mode: Mode, back: bool },
}

// An act with its arguments: the first n of eight.
#[derive(Clone, Copy, Drop)]
pub struct Doing {
    pub act: Act,
    pub args: [i32; 8],
    pub n: usize,
}

// The first n of the arguments, the last one first.
pub fn reversed(args: [i32; 8], n: usize) -> [i32; 8]
    requires { n ≤ 8 }
    ensures { take n result ≡ reverse (take n args) }
{
    let mut r = args;
    r[..n].reverse();
    r
}
