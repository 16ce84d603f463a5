// The run of a step table over a list of tuples and a lent store of columns, both ways.
#![tactic(auto)]

ghost use Rattle.std.specs.Prelude.{◌≡◌, true, cond, ◌*◌, ◌≤◌, ◌/◌, length};
ghost use Rattle.rules.specs.Pipeline.Record.{made, listed};
ghost use Rattle.rules.specs.Pipeline.Run.{bad_list, Runs};
ghost use Rattle.laws_steps.specs.Depth.{depth_after};
ghost use Rattle.columns.specs.Doings.{doing, Does};
ghost use Rattle.columns.specs.Machine.{Acted};
ghost use Rattle.pipeline.specs.Plans.{depth_stepped, Stands};

use adapt::adapt;
use axisswap::axisswap;
use columns::{Act, Doing, counts_none, depth_after, zero_rest};
use pushpop::{pop, push};
use record::{act_of, end_of, good_in, is_omitted, visited_of};
use rules::{Direction, Finished, Refusal, Step, Table};
use stack::{flip, pop_all, roll, swap};

// ---- one act

// An act on every tuple and the columns.
fn run_act(tuples: &mut [f64], columns: &mut [f64], depth: usize, d: Doing)
    requires depth_bound { depth ≤ 64 }
    requires does { Does (doing d) d }
    requires tuples_in_bounds { depth * (length tuples.old / 4) ≤ length columns.old }
    requires tuples_in_bounds_2 { depth_after (doing d) depth * (length tuples.old / 4) ≤ length columns.old }
    ensures { Acted (doing d) depth tuples.old columns.old tuples.new columns.new }
{
    let l = &d.args[..d.n];
    match d.act {
        Act::Pushes => push(tuples, columns, depth, l),
        Act::Pops => pop(tuples, columns, depth, l),
        Act::PopsAll => pop_all(tuples, columns, depth, l),
        Act::Flips => flip(tuples, columns, depth, l),
        Act::Rolls { m, n } => roll(tuples, columns, depth, m, n),
        Act::Swaps => swap(tuples, columns, depth),
        Act::Drops => {}
        Act::Orders { back } => axisswap(tuples, back, l),
        Act::Adapts { mode, back } => adapt(tuples, mode, back, d.args),
    }
}

// ---- one step of the table, which may be omitted

// What is known after a step: the depth, and whether it counts none of the tuples.
#[derive(Clone, Copy, Drop)]
pub struct Stood {
    pub depth: usize,
    pub none: bool,
}

// One step, which leaves all as it is where it is omitted.
fn run_step(
    tuples: &mut [f64],
    columns: &mut [f64],
    depth: usize,
    s: Step,
    direction: Direction,
) -> Stood
    requires depth_bound { depth ≤ 64 }
    requires s_value { made s ≡ true }
    requires tuples_in_bounds { depth * (length tuples.old / 4) ≤ length columns.old }
    requires tuples_in_bounds_2 { depth_stepped direction s depth * (length tuples.old / 4) ≤ length columns.old }
    ensures { Stands direction s depth tuples.old columns.old tuples.new columns.new result }
{
    if is_omitted(s, direction) {
        return Stood { depth, none: false };
    }
    let d = act_of(s, direction);
    let stood = Stood {
        depth: depth_after(d, depth),
        none: counts_none(d, depth),
    };
    run_act(tuples, columns, depth, d);
    stood
}

// ---- the run

// More records than a table holds, a list that is none of whole tuples or too long, and a store that is too short.
const MANY_RECORDS: Refusal = Refusal {
    number: 18,
    place: 0,
    offset: 0,
};

const BAD_LIST: Refusal = Refusal {
    number: 15,
    place: 0,
    offset: 0,
};

const SHORT_STORE: Refusal = Refusal {
    number: 17,
    place: 0,
    offset: 0,
};

// The count, from the count before a step.
fn counted(none: bool, count: usize) -> usize
    ensures { result ≡ cond none 0 count }
{
    if none { 0 } else { count }
}

// 15: is the length of a list no multiple of 4, or over 65,536 tuples?
#[tactic(auto, unfolding(rules::specs::Pipeline::Run::bad_list))]
fn is_bad_list(tuples: &[f64]) -> bool
    ensures { result ≡ bad_list tuples.now }
{
    let n = tuples.len();
    n % 4 != 0 || 65536 < n / 4
}

// The run of a table over a list, four numbers per tuple, and a store of columns: the count and how many columns are left, or
// the refusal. The table is large and given by value: every pass over it stands here, so that it is not copied for each. The
// passes are short, so that it is not copied at all: what is long stands in `run_step`, which two of them call.
pub fn run(
    table: Table,
    direction: Direction,
    tuples: &mut [f64],
    columns: &mut [f64],
) -> Result<Finished, Refusal>
    ensures { Runs (direction) (listed (table)) tuples.old columns.old result tuples.new columns.new }
{
    let n = table.n;
    let steps = table.steps;
    if 64 < n {
        return Err(MANY_RECORDS);
    }
    // 18: the first record that no preparation makes, whose reading is not the first's, or whose span is not one behind the last
    let first = steps[0];
    let reading = first.reading;
    let mut end = 0;
    for i in 0..n {
        let s = steps[i];
        if !good_in(s, reading, end) {
            return Err(Refusal {
                number: 18,
                place: i + 1,
                offset: 0,
            });
        }
        end = end_of(s);
    }
    if is_bad_list(tuples) {
        return Err(BAD_LIST);
    }
    // 16: the depths, by a run over no tuples
    let mut no_tuples = [0.0; 0];
    let mut no_columns = [0.0; 0];
    let mut depth = 0;
    let mut deepest = 0;
    for i in 0..n {
        let k = visited_of(direction, i, n);
        let s = steps[k];
        let stood = run_step(&mut no_tuples, &mut no_columns, depth, s, direction);
        depth = stood.depth;
        if 64 < depth {
            return Err(Refusal {
                number: 16,
                place: k + 1,
                offset: 0,
            });
        }
        deepest = deepest.max(depth);
    }
    let whole = tuples.len() / 4;
    let used = deepest * whole;
    if columns.len() < used {
        return Err(SHORT_STORE);
    }
    // every step that runs, one after the other, in running order
    let mut count = whole;
    let mut left = 0;
    for i in 0..n {
        let k = visited_of(direction, i, n);
        let s = steps[k];
        let stood = run_step(tuples, columns, left, s, direction);
        count = counted(stood.none, count);
        left = stood.depth;
    }
    zero_rest(columns, left * whole, used);
    Ok(Finished { count, left })
}
