// Each operator's own rule: the record that it makes of a step's parameters, or 14. The Rust is the `new` of src/inner_op/*.rs.
ghost use Rattle.std.specs.Prelude.{◌≡◌, [], ◌-◌, ◌≤◌, ◌<◌};
ghost use Rattle.rules.specs.Operators.Adapt.{word_given};
ghost use Rattle.rules.specs.Operators.Arguments.{value_of};
ghost use Rattle.rules.specs.Operators.PushPop.{axes};
ghost use Rattle.rules.specs.Pipeline.Prepare.{own_rule, judged14};
ghost use Rattle.rules.specs.declared.Mode.{Mode};
ghost use Rattle.rules.specs.declared.Name.TheVariants as name;
ghost use Rattle.adapt.specs.Words.{word_is};
ghost use Rattle.prepare.specs.Lookup.{params_in, given};
ghost use Rattle.prepare.specs.SeriesRead.{args_of, Good, no_numbers};
ghost use Rattle.prepare.specs.Faults.{Lowers};
ghost use Rattle.prepare.specs.Records.{reply_is, record_at, recorded_at, kept_by, Axes, Extended, Flagged, four_axes};
ghost use Rattle.prepare.specs.Actions.{key_at, Chosen};

use crate::faults::{Fault, Lowest};
use crate::series::{Args, Numbers};
use crate::values::{is_given, value_of};
use adapt::{Word, between, operator_in, word_of};
use parameters::Parameters;
use record::{is_args, step_of};
use rules::{
    AXISSWAP, Mode, Name, POP, PUSH, STACK_DROP, STACK_FLIP, STACK_POP, STACK_PUSH, STACK_ROLL,
    STACK_SWAP, STACK_UNROLL, Step,
};

// The operator's own rule is broken.
const BROKEN: Fault = Fault { number: 14, at: 0 };

// ---- records

// The record with the operator of that number and these arguments; the marks are the parameters'.
fn recorded(table: &Parameters, operator: u8, a: Args) -> Step
    requires good { Good a }
    ensures { result ≡ record_at operator (params_in table.now) (args_of a) }
{
    let inv = is_given(table, b"inv");
    let omit_fwd = is_given(table, b"omit_fwd");
    let omit_inv = is_given(table, b"omit_inv");
    let list = a.list;
    step_of(operator, list, a.n, inv, omit_fwd, omit_inv)
}

// The record with the numbers of a series, if they are whole and keep the operator's rule; else 14.
fn own_series(table: &Parameters, operator: u8, numbers: Numbers) -> Result<Step, Fault>
    requires good { Good numbers.args }
    ensures { reply_is result ≡ judged14 (recorded_at operator (params_in table.now) (kept_by operator numbers)) }
{
    if !numbers.whole {
        return Err(BROKEN);
    }
    let a = numbers.args;
    let l = a.list;
    let m = a.n;
    if !is_args(operator, &l[..m]) {
        return Err(BROKEN);
    }
    Ok(recorded(table, operator, a))
}

// ---- push and pop

// No arguments.
fn nothing() -> Args
    ensures { Axes [] result }
{
    Args { list: [0; 8], n: 0 }
}

// The arguments with an axis behind them.
fn extended(a: Args, axis: i32) -> Args
    requires good { Good a }
    requires n_bound { a.n < 8 }
    ensures { Extended a axis result }
{
    let mut more = a;
    more.list[a.n] = axis;
    more.n += 1;
    more
}

// The arguments, and the axis behind them if its flag is given.
fn with_flag(table: &Parameters, a: Args, key: &[u8], axis: i32) -> Args
    requires good { Good a }
    requires n_bound { a.n < 8 }
    ensures { Flagged a (given key.now (params_in table.now)) axis result }
{
    if is_given(table, key) {
        return extended(a, axis);
    }
    a
}

// "flags in order 1 to 4, possibly none"
fn axes_of(table: &Parameters) -> Args
    ensures { Axes (axes (params_in table.now)) result }
{
    let a = with_flag(table, nothing(), b"v_1", 1);
    let b = with_flag(table, a, b"v_2", 2);
    let c = with_flag(table, b, b"v_3", 3);
    with_flag(table, c, b"v_4", 4)
}

// ---- stack

// A series of no numbers: that of an action without one.
fn no_numbers() -> Numbers
    ensures { result ≡ no_numbers }
{
    Numbers {
        number: 14,
        at: 0,
        whole: true,
        args: Args { list: [0; 8], n: 0 },
    }
}

// Which actions are given: none, the one of an operator, or more than one.
#[derive(Clone, Copy, Drop)]
enum Choice {
    None,
    One(u8),
    More,
}

// The choice with one action more, whose key this is, if it is given.
fn with_action(table: &Parameters, c: Choice, key: &[u8], operator: u8) -> Choice
    requires le_operator { (2 ≤ operator) × (operator ≤ 8) }
    requires key_value { key.now ≡ key_at (operator - 2) }
    requires chosen { Chosen (params_in table.now) (operator - 2) c }
    ensures { Chosen (params_in table.now) (operator - 1) result }
{
    if !is_given(table, key) {
        return c;
    }
    match c {
        Choice::None => Choice::One(operator),
        Choice::One(_) => Choice::More,
        Choice::More => Choice::More,
    }
}

// "the seven stack actions"
fn action_of(table: &Parameters) -> Choice
    ensures { Chosen (params_in table.now) 7 result }
{
    let a = with_action(table, Choice::None, b"push", STACK_PUSH);
    let b = with_action(table, a, b"pop", STACK_POP);
    let c = with_action(table, b, b"flip", STACK_FLIP);
    let d = with_action(table, c, b"roll", STACK_ROLL);
    let e = with_action(table, d, b"unroll", STACK_UNROLL);
    let f = with_action(table, e, b"swap", STACK_SWAP);
    with_action(table, f, b"drop", STACK_DROP)
}

// "exactly one action": the series is its own; swap and drop have none. The same in every mode.
fn own_stack(table: &Parameters, low: Lowest) -> Result<Step, Fault>
    requires lowers { Lowers name.Stack (params_in table.now) low }
    requires number_value { low.number ≡ 14 }
    ensures { (m : Mode) → reply_is result ≡ judged14 (own_rule m name.Stack (params_in table.now)) }
{
    let numbers = low.series.unwrap_or(no_numbers());
    match action_of(table) {
        Choice::None => Err(BROKEN),
        Choice::One(operator) => own_series(table, operator, numbers),
        Choice::More => Err(BROKEN),
    }
}

// ---- axisswap

// "Default 1,2,3,4."
fn all_axes() -> Args
    ensures { Axes four_axes result }
{
    Args {
        list: [1, 2, 3, 4, 0, 0, 0, 0],
        n: 4,
    }
}

// Its order is the one series that it can have. The same in every mode.
fn own_order(table: &Parameters, low: Lowest) -> Result<Step, Fault>
    requires lowers { Lowers name.Axisswap (params_in table.now) low }
    requires number_value { low.number ≡ 14 }
    ensures { (m : Mode) → reply_is result ≡ judged14 (own_rule m name.Axisswap (params_in table.now)) }
{
    match low.series {
        Some(numbers) => own_series(table, AXISSWAP, numbers),
        None => Ok(recorded(table, AXISSWAP, all_axes())),
    }
}

// ---- adapt

// A word that is not given is `enuf`.
fn word_given(table: &Parameters, key: &[u8]) -> Option<Word>
    ensures { word_is result ≡ word_given (value_of key.now (params_in table.now)) }
{
    match value_of(table, key) {
        Some(value) => word_of(value),
        None => word_of(b"enuf"),
    }
}

// The operator, and what the two words make between them, are those of the mode.
fn own_adapt(table: &Parameters, mode: Mode) -> Result<Step, Fault>
    ensures { reply_is result ≡ judged14 (own_rule mode name.Adapt (params_in table.now)) }
{
    let Some(from) = word_given(table, b"from") else {
        return Err(BROKEN);
    };
    let Some(to) = word_given(table, b"to") else {
        return Err(BROKEN);
    };
    let list = between(from, to, mode);
    let a = Args { list: list, n: 8 };
    Ok(recorded(table, operator_in(mode), a))
}

// ---- any of them

pub fn own_rule(table: &Parameters, name: Name, mode: Mode, low: Lowest) -> Result<Step, Fault>
    requires lowers { Lowers name (params_in table.now) low }
    requires number_value { low.number ≡ 14 }
    ensures { reply_is result ≡ judged14 (own_rule mode name (params_in table.now)) }
{
    match name {
        Name::Push => Ok(recorded(table, PUSH, axes_of(table))),
        Name::Pop => Ok(recorded(table, POP, axes_of(table))),
        Name::Stack => own_stack(table, low),
        Name::Axisswap => own_order(table, low),
        Name::Adapt => own_adapt(table, mode),
    }
}
