// What a step record does in a direction. Run and check both go by it.
ghost use Rattle.std.specs.Prelude.{◌≡◌, true};
ghost use Rattle.rules.specs.Operators.Table.{operator_of};
ghost use Rattle.rules.specs.Pipeline.Record.{reading_of, made};
ghost use Rattle.rules.specs.Pipeline.Running.{opposite, turns, directed, act, omitted};
ghost use Rattle.columns.specs.Doings.{Does};

use columns::Doing;
use rules::{
    AXISSWAP, CRATE, DOCUMENTED, Direction, Mode, POP, PUSH, STACK_DROP, STACK_PUSH, Step,
};

#[tactic(auto, unfolding(rules::specs::Pipeline::Running::opposite))]
fn opposite(direction: Direction) -> Direction
    ensures { result ≡ opposite direction }
{
    match direction {
        Direction::Forward => Direction::Inverse,
        Direction::Inverse => Direction::Forward,
    }
}

// Does `inv` turn the operator? In the crate's reading "`axisswap` and `adapt` only", in PROJ's every one.
#[tactic(auto, using(crate::proofs::Directed::turned_behind), unfolding(rules::specs::Pipeline::Running::turns, rules::specs::Pipeline::Record::reading_of))]
fn turns(reading: u8, operator: u8) -> bool
    ensures { result ≡ turns (reading_of reading) (operator_of operator) }
{
    reading != CRATE || STACK_DROP < operator
}

// The direction in which the step itself runs.
#[tactic(auto, unfolding(rules::specs::Pipeline::Running::directed, rules::specs::Pipeline::Record::operator, rules::specs::Pipeline::Record::is_set))]
fn directed(direction: Direction, step: Step) -> Direction
    ensures { result ≡ directed direction step }
{
    if step.inv == 1 && turns(step.reading, step.operator) {
        return opposite(direction);
    }
    direction
}

// What the step does in a run of that direction.
pub fn act_of(step: Step, direction: Direction) -> Doing
    requires { made step ≡ true }
    ensures { Does (act direction step) result }
{
    let operator = step.operator;
    let args = step.args;
    let n = step.n as usize;
    let own = directed(direction, step);
    match operator {
        PUSH | POP => pushpop::act_of(operator, args, n, own),
        STACK_PUSH..=STACK_DROP => stack::act_of(operator, args, n, own),
        AXISSWAP => axisswap::act_of(args, n, own),
        DOCUMENTED => adapt::act_of(args, n, own, Mode::Documented),
        _ => adapt::act_of(args, n, own, Mode::Crate),
    }
}

// Is the step left out of a run in that direction?
#[tactic(auto, unfolding(rules::specs::Pipeline::Running::omitted, rules::specs::Pipeline::Record::is_set))]
pub fn is_omitted(step: Step, direction: Direction) -> bool
    ensures { result ≡ omitted direction step }
{
    match direction {
        Direction::Forward => step.omit_fwd == 1,
        Direction::Inverse => step.omit_inv == 1,
    }
}
