// What its actions do in a direction.
ghost use Rattle.std.specs.Prelude.{◌≡◌, ◌*◌, ◌<◌, take};
ghost use Rattle.rules.specs.Operators.Arguments.{arg};
ghost use Rattle.rules.specs.Operators.Stack.{rolling, unrolling};
ghost use Rattle.rules.specs.Operators.Table.{operator_of, forward, inverse};
ghost use Rattle.rules.specs.Pipeline.Running.{act_of};
ghost use Rattle.columns.specs.Doings.{Does};
ghost use Rattle.stack.specs.Actions.{Roll, Rolled, Action, Turns, acting};

use columns::{Act, Doing, reversed};
use numbers::{is_minus, size_of};
use rules::{Direction, STACK_FLIP, STACK_POP, STACK_PUSH, STACK_ROLL, STACK_SWAP, STACK_UNROLL};

// How many times n turns of m come to, below m: a full turn changes nothing.
pub fn turns(m: usize, n: usize) -> usize
    requires { n < 2 * m }
    ensures { Turns m n result }
{
    if m <= n { n - m } else { n }
}

// roll: "Negative n means m + n."
fn rolling(l: &[i32]) -> Act
    requires { Roll l.now }
    ensures { Rolled (rolling (arg 1 l.now) (arg 2 l.now)) l.now result }
{
    let m = size_of(l[0]);
    let n = size_of(l[1]);
    if is_minus(l[1]) {
        Act::Rolls { m, n: m - n }
    } else {
        Act::Rolls { m, n }
    }
}

// "Inverse uses m - n, as does unroll."
fn unrolling(l: &[i32]) -> Act
    requires { Roll l.now }
    ensures { Rolled (unrolling (arg 1 l.now) (arg 2 l.now)) l.now result }
{
    let m = size_of(l[0]);
    let n = size_of(l[1]);
    if is_minus(l[1]) {
        Act::Rolls { m, n: m + n }
    } else {
        Act::Rolls { m, n: m - n }
    }
}

// An act with its arguments.
fn doing(act: Act, args: [i32; 8], n: usize) -> Doing
    ensures { result ≡ acting act args n }
{
    Doing { act, args, n }
}

// What an action does forward.
// Stays: the number of the operator stands in a record, which C fills.
fn forward(operator: u8, args: [i32; 8], n: usize) -> Doing
    requires { Action operator args n }
    ensures { Does (forward (operator_of operator) (take n args)) result }
{
    match operator {
        STACK_PUSH => doing(Act::Pushes, args, n),
        STACK_POP => doing(Act::PopsAll, args, n),
        STACK_FLIP => doing(Act::Flips, args, n),
        STACK_ROLL => doing(rolling(&args[..n]), args, n),
        STACK_UNROLL => doing(unrolling(&args[..n]), args, n),
        STACK_SWAP => doing(Act::Swaps, args, n),
        _ => doing(Act::Drops, args, n),
    }
}

// "Inverse push is pop with arguments reversed, and the other way round; flip is not reversed."
fn inverse(operator: u8, args: [i32; 8], n: usize) -> Doing
    requires { Action operator args n }
    ensures { Does (inverse (operator_of operator) (take n args)) result }
{
    match operator {
        STACK_PUSH => doing(Act::PopsAll, reversed(args, n), n),
        STACK_POP => doing(Act::Pushes, reversed(args, n), n),
        STACK_FLIP => doing(Act::Flips, args, n),
        STACK_ROLL => doing(unrolling(&args[..n]), args, n),
        STACK_UNROLL => doing(rolling(&args[..n]), args, n),
        STACK_SWAP => doing(Act::Swaps, args, n),
        _ => doing(Act::Drops, args, n),
    }
}

pub fn act_of(operator: u8, args: [i32; 8], n: usize, direction: Direction) -> Doing
    requires { Action operator args n }
    ensures { Does (act_of direction (operator_of operator) (take n args)) result }
{
    match direction {
        Direction::Forward => forward(operator, args, n),
        Direction::Inverse => inverse(operator, args, n),
    }
}
