// The calls on step tables, over a row of step records that the caller lends. Each makes the table of 64 that stands for the
// row, or the row's records of such a table, and leaves the work to the call by value. No call has a `requires`.
#![tactic(auto)]

ghost use Rattle.std.specs.Prelude.{◌≡◌};
ghost use Rattle.rules.specs.Pipeline.Prepare.{Prepares, PreparesAs};
ghost use Rattle.rules.specs.Pipeline.Check.{Checks};
ghost use Rattle.rules.specs.Pipeline.Run.{Runs};
ghost use Rattle.entry.specs.Plans.{Plans};

use rules::{Direction, Finished, Foretold, Mode, Reading, Refusal, Step};

// What preparing is to answer, and what it is to write over the lent row: the first n of the records. A refusal writes none.
#[derive(Clone, Copy, Drop)]
pub struct Plan {
    pub answer: Result<usize, Refusal>,
    pub steps: [Step; 64],
    pub n: usize,
}

// Prepares text in a reading and a mode for a row of so many records.
fn planned(text: &[u8], reading: Reading, mode: Mode, lent: usize) -> Plan
    ensures { Plans reading mode text.now lent result }
{
    let p = prepare::prepare_as(text, reading, mode, rows::empty(lent));
    let answer = p.answer;
    let table = p.table;
    let steps = table.steps;
    Plan {
        answer,
        steps,
        n: answer.unwrap_or(0),
    }
}

// Makes step records of a definition in a reading and a mode, from the first of the lent row on.
pub fn prepare_as(
    text: &[u8],
    reading: Reading,
    mode: Mode,
    table: &mut [Step],
) -> Result<usize, Refusal>
    ensures { PreparesAs reading mode text.now table.old result table.new }
{
    let p = planned(text, reading, mode, table.len());
    rows::store(table, p.steps, p.n);
    p.answer
}

// The same in the crate's reading and the crate's mode.
pub fn prepare(text: &[u8], table: &mut [Step]) -> Result<usize, Refusal>
    ensures { Prepares text.now table.old result table.new }
{
    prepare_as(text, Reading::Crate, Mode::Crate, table)
}

// Says of a step table and a direction, without any data, what a run will do.
pub fn check(table: &[Step], direction: Direction) -> Foretold
    ensures { Checks direction table.now result }
{
    let t = rows::load(table);
    foretell::check(t, direction)
}

// Runs a step table over a list of tuples, four numbers each, and a store for columns.
pub fn run(
    table: &[Step],
    direction: Direction,
    tuples: &mut [f64],
    columns: &mut [f64],
) -> Result<Finished, Refusal>
    ensures { Runs direction table.now tuples.old columns.old result tuples.new columns.new }
{
    let t = rows::load(table);
    pipeline::run(t, direction, tuples, columns)
}
