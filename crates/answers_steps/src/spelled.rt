// ROWS: step records as a caller would lend them, whatever is in them. They are joined by `;`, and each is sixteen whole
// numbers joined by commas: operator, n, inv, omit_fwd, omit_inv, the eight arguments, the reading, the span's first byte and length.
use crate::records::untouched;
use answers_wire::{parts, read_signed};
use rules::{Span, Step, Table};

// The most records that are spelled: more than a table has room for.
const MOST_ROWS: usize = 70;

// How many numbers a record has.
const EACH: usize = 16;

// Behind how many numbers its eight arguments stand.
const FIRST_ARG: usize = 5;

// The table that stands for the records that the field spells, `-` for none: as many of them as have room, and their true number.
pub fn read_rows(field: &[u8]) -> Option<Table> {
    if field == b"-".as_slice() {
        return Some(untouched(0));
    }
    let n = parts(field, b';');
    if MOST_ROWS < n {
        return None;
    }
    let mut table = untouched(n);
    for (i, row) in field.split(|b| *b == b';').enumerate() {
        let step = read_row(row)?;
        if let Some(room) = table.steps.get_mut(i) {
            *room = step;
        }
    }
    Some(table)
}

// A record: as many numbers as it has fields, and each one that its field holds.
fn read_row(row: &[u8]) -> Option<Step> {
    let numbers = read_numbers(row)?;
    let [
        operator,
        n,
        inv,
        omit_fwd,
        omit_inv,
        ..,
        reading,
        from,
        length,
    ] = numbers;
    Some(Step {
        operator: u8::try_from(operator).ok()?,
        n: read_count(n)?,
        inv: u8::try_from(inv).ok()?,
        omit_fwd: u8::try_from(omit_fwd).ok()?,
        omit_inv: u8::try_from(omit_inv).ok()?,
        reading: u8::try_from(reading).ok()?,
        args: read_args(&numbers[FIRST_ARG..FIRST_ARG + 8])?,
        span: Span {
            from: u32::try_from(from).ok()?,
            length: u32::try_from(length).ok()?,
        },
    })
}

fn read_numbers(row: &[u8]) -> Option<[i64; 16]> {
    if parts(row, b',') != EACH {
        return None;
    }
    let mut numbers = [0; 16];
    for (number, spelled) in numbers.iter_mut().zip(row.split(|b| *b == b',')) {
        *number = read_signed(spelled)?;
    }
    Some(numbers)
}

// How many arguments there are. An n that is over the greatest byte is lent as that one: a record has room for eight
// arguments, and either is more.
fn read_count(n: i64) -> Option<u8> {
    let n = u32::try_from(i32::try_from(n).ok()?).ok()?;
    Some(u8::try_from(n).unwrap_or(u8::MAX))
}

fn read_args(numbers: &[i64]) -> Option<[i32; 8]> {
    let mut args = [0; 8];
    for (arg, number) in args.iter_mut().zip(numbers) {
        *arg = i32::try_from(*number).ok()?;
    }
    Some(args)
}
