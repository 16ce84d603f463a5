// What a run left of the list and the store that were lent to it.
use answers_say::{Lent, Output, end_line, say_refusal};
use rules::{Finished, Refusal};

// The most numbers of a list that is printed.
const MOST_SHOWN: usize = 64;

// What each number of a lent store holds beforehand, and of the guards.
pub const UNTOUCHED_NUMBER: f64 = -7.0;

// The line of a run of the numbers that `field` spells, lent as the list, with a store.
pub fn say_ran<P: Print>(
    out: &mut Output<P>,
    ran: Result<Finished, Refusal>,
    kept: bool,
    field: &[u8],
    list: &Lent<f64>,
    store: &Lent<f64>,
) {
    let guarded = kept && is_untouched(list.guard) && is_untouched(store.guard);
    match ran {
        Ok(Finished { count, left }) => {
            out.say(format_args!("ok {count} {left}"));
            say_rows(out, list.room, store.room);
            end_line(out, guarded);
        }
        Err(refusal) => {
            // The list's numbers are read once more from their field.
            let same = answers_wire::are_numbers(field, list.room) && is_untouched(store.room);
            say_refusal(out, refusal, guarded && same);
        }
    }
}

// NUMBERS and COLUMNS, or two `-`, each behind a space.
fn say_rows<P: Print>(out: &mut Output<P>, list: &[f64], store: &[f64]) {
    if MOST_SHOWN < list.len() {
        out.say(" - -");
        return;
    }
    for row in [list, store] {
        out.say(' ');
        out.list(row, |out, x| out.pattern(*x));
    }
}

fn is_untouched(numbers: &[f64]) -> bool {
    answers_wire::is_all_number(numbers, UNTOUCHED_NUMBER)
}
