// `run`: a list and a store are lent to the run of a table, and both are looked at.
ghost use Rattle.std.specs.Prelude.{◌≤◌};

use crate::ask::{Unanswered, expect_fields};
use crate::given::{Source, read_given};
use crate::rooms::MOST_NUMBERS;
use answers_say::{Lent, Output, read_direction};
use answers_steps::{UNTOUCHED_NUMBER, say_ran};
use answers_wire::{count_numbers, field, read_natural, read_numbers};
use pipeline::run;

// `run DIR STORE TEXT NUMBERS`, `rows-run DIR STORE ROWS NUMBERS`.
pub fn answer_run<P: Print>(
    out: &mut Output<P>,
    source: Source,
    line: &[u8],
    text: &mut [u8; 65536],
    list: &mut [f64; 262164],
    store: &mut [f64; 262164],
) -> Result<(), Unanswered> {
    expect_fields(line, 5)?;
    let direction = read_direction(field(line, 1)).ok_or(Unanswered::NoRequest)?;
    let room = read_natural(field(line, 2), MOST_NUMBERS).ok_or(Unanswered::NoRequest)?;
    let spelled = field(line, 4);
    let n = count_numbers(spelled, MOST_NUMBERS).ok_or(Unanswered::NoRequest)?;
    let given = read_given(source, field(line, 3), text)?;
    let list = lay_list(list, n, spelled);
    let store = lay_store(store, room);
    let ran = run(given.table, direction, list.room, store.room);
    say_ran(out, ran, given.kept, spelled, &list, &store);
    Ok(())
}

// A list of the n numbers that the field spells, and the guard behind them.
fn lay_list<'a>(storage: &'a mut [f64; 262164], n: usize, spelled: &[u8]) -> Lent<'a, f64>
    requires { n ≤ 262148 }
{
    let list = Lent::new(storage, n);
    read_numbers(spelled, list.room);
    list.guard.fill(UNTOUCHED_NUMBER);
    list
}

// A store of n numbers, and the guard behind them.
fn lay_store(storage: &mut [f64; 262164], n: usize) -> Lent<'_, f64>
    requires { n ≤ 262148 }
{
    let store = Lent::new(storage, n);
    store.room.fill(UNTOUCHED_NUMBER);
    store.guard.fill(UNTOUCHED_NUMBER);
    store
}
