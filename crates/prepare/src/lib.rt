// Preparing: from a text to its step records, in a table of 64 by value.
#![tactic(auto)]

mod decimal;
mod faults;
mod judge;
mod keys;
mod own;
mod series;
mod values;

ghost use Rattle.std.specs.Prelude.{◌≡◌, true, ◌+◌, ◌*◌, ◌<◌, ◌≤◌, min, length};
ghost use Rattle.rules.specs.Text.Bytes.{in_domain};
ghost use Rattle.prepare.specs.StepReply.{Bare, Roomy};
ghost use Rattle.prepare.specs.Lent.{normal_reply, lent_to, preparing, preparing_as, offset_if, refused_with, answered, first_named};

use crate::judge::prepare_step;
use normalise::clean_into;
use reader::next_from;
use record::{in_reading, spanned};
use rules::{Found, Mode, NO_ROOM, Reading, Refusal, Step, TOO_MANY_STEPS, Table};
use split::line_at;
use text::tested;

// A text of so few bytes, ten times as long, has room in 1,024, in 4,096, or in 16,384, and one to spare.
const FEW: usize = 102;

const SOME: usize = 409;

const MORE: usize = 1638;

// What preparing answers, and the table afterwards. The row that is lent are the first `table.n` records.
#[derive(Clone, Copy, Drop)]
pub struct Preparing {
    pub answer: Result<usize, Refusal>,
    pub table: Table,
}

// A refusal, which leaves the table as it was.
fn refusing(refusal: Refusal, table: Table) -> Preparing
    ensures { result ≡ refused_with refusal table }
{
    Preparing {
        answer: Err(refusal),
        table,
    }
}

// "12 gains the offset": the byte of a fault, or 0 for any other number.
fn offset_of(number: u8, at: usize) -> usize
    ensures { result ≡ offset_if number at }
{
    if number == 12 {
        return at;
    }
    0
}

// The answer once all n steps are read: 8; the first refusal of one of them, if there is one; 7; or their records in front of the
// table's.
fn answer_of(table: Table, steps: [Step; 64], n: usize, first: Option<Refusal>) -> Preparing
    ensures { result ≡ answered table steps n first }
{
    if 64 < n {
        return refusing(TOO_MANY_STEPS, table);
    }
    if let Some(refusal) = first {
        return refusing(refusal, table);
    }
    if table.n < n {
        return refusing(NO_ROOM, table);
    }
    Preparing {
        answer: Ok(n),
        table: Table {
            steps: steps,
            n: table.n,
        },
    }
}

// Prepares all steps of a normalised text in one walk over it. "Preparing splits first": a step that is modifiers alone is refused 6 at once. The
// first refusal of a step is kept until the end is reached, since 6 and 8 come before it. Where a step is found is its record's span. a, b and c are
// room to work in.
fn prepare_steps(
    normal: &[u8],
    mode: Mode,
    table: Table,
    a: &mut [u8],
    b: &mut [u8],
    c: &mut [u8],
) -> Preparing
    requires bare { Bare normal.now }
    requires normal_len_bound { length normal.now ≤ 40960 }
    requires steps_len { length table.steps ≡ 64 }
    requires roomy { Roomy (length normal.now) (length a.old) (length b.old) }
    requires normal_in_bounds { length normal.now < length c.old }
    ensures { result ≡ lent_to (normal_reply mode normal.now) table }
{
    let mut steps = table.steps;
    let mut at = 0;
    let mut n = 0;
    let mut first = None;
    while let Some(Found { from, to, then }) = next_from(normal, at) {
        let i = n;
        n += 1;
        at = then.at;
        let Some(end) = line_at(&normal[from..to], c, 0) else {
            let alone = Refusal {
                number: 6,
                place: n,
                offset: 0,
            };
            return refusing(alone, table);
        };
        if first.is_some() {
            continue;
        }
        if 64 < n {
            continue;
        }
        let length = end - 1;
        match prepare_step(&c[..length], mode, a, b) {
            Ok(step) => {
                steps[i] = spanned(step, from, to);
            }
            Err(fault) => {
                first = Some(Refusal {
                    number: fault.number,
                    place: n,
                    offset: offset_of(fault.number, fault.at),
                });
            }
        }
    }
    answer_of(table, steps, n, first)
}

// The answer for a text that is neither too long nor outside the domain; a, b, c and d are room to work in.
fn answer(
    text: &[u8],
    mode: Mode,
    table: Table,
    a: &mut [u8],
    b: &mut [u8],
    c: &mut [u8],
    d: &mut [u8],
) -> Preparing
    requires text_len_bound { length text.now ≤ 4096 }
    requires text_value { in_domain text.now ≡ true }
    requires steps_len { length table.steps ≡ 64 }
    requires text_in_bounds { 10 * length text.now ≤ length a.old }
    requires text_in_bounds_2 { 10 * length text.now ≤ length b.old }
    requires text_in_bounds_3 { 10 * length text.now < length c.old }
    requires text_in_bounds_4 { min (10 * length text.now) 4096 + 9 ≤ length d.old }
    ensures { result ≡ preparing mode text.now table }
{
    let n = clean_into(text, a, b, c);
    prepare_steps(&a[..n], mode, table, b, d, c)
}

// The same over buffers of its own, of N bytes and of D: for a short text to clear large ones would cost more than the rest.
fn within<const N: usize, const D: usize>(text: &[u8], mode: Mode, table: Table) -> Preparing
    requires text_len_bound { length text.now ≤ 4096 }
    requires text_value { in_domain text.now ≡ true }
    requires steps_len { length table.steps ≡ 64 }
    requires text_in_bounds { 10 * length text.now < N }
    requires text_in_bounds_2 { min (10 * length text.now) 4096 + 9 ≤ D }
    requires few { (N ≤ 40961) × (D ≤ 4105) }
    ensures { result ≡ preparing mode text.now table }
{
    let mut a = [0u8; N];
    let mut b = [0u8; N];
    let mut c = [0u8; N];
    let mut d = [0u8; D];
    answer(text, mode, table, &mut a, &mut b, &mut c, &mut d)
}

// Prepares text into the table's records from the first on, in a mode and in the crate's reading. It refuses 1, 2, 6 and 8 as splitting does, then
// the first faulty step by its lowest number of 1, 6, 9 to 14, then 7; and then the table is as it was. It is a function of its own in the
// program too: a caller that holds all of it fills room for two tables more at each call.
#[inline(never)]
fn prepare_in(text: &[u8], mode: Mode, table: Table) -> Preparing
    ensures { result ≡ preparing mode text.now table }
{
    if let Err(refusal) = tested(text) {
        return Preparing {
            answer: Err(refusal),
            table,
        };
    }
    if text.len() <= FEW {
        return within::<1024, 1033>(text, mode, table);
    }
    if text.len() <= SOME {
        return within::<4096, 4105>(text, mode, table);
    }
    if text.len() <= MORE {
        return within::<16384, 4105>(text, mode, table);
    }
    within::<40961, 4105>(text, mode, table)
}

// The first n of 64 records in a reading, and the others as they are.
fn named(mut steps: [Step; 64], n: usize, reading: Reading) -> [Step; 64]
    requires { n ≤ length steps }
    ensures { result ≡ first_named reading n steps }
{
    for i in 0..n {
        steps[i] = in_reading(steps[i], reading);
    }
    steps
}

// The same in a reading and a mode: the records of an answer name the reading.
pub fn prepare_as(text: &[u8], reading: Reading, mode: Mode, table: Table) -> Preparing
    ensures { result ≡ preparing_as reading mode text.now table }
{
    let p = prepare_in(text, mode, table);
    let answer = p.answer;
    let made = p.table;
    match answer {
        Ok(n) => {
            let steps = made.steps;
            Preparing {
                answer: answer,
                table: Table {
                    steps: named(steps, n, reading),
                    n: made.n,
                },
            }
        }
        Err(_) => p,
    }
}
