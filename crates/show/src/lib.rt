// What the program `steps` prints, composed into a buffer. Each function writes its piece into out from at, leaves the rest of
// out as it was, and returns the place behind the piece.
#![tactic(auto)]

mod checks;
mod pieces;
mod places;

ghost use Rattle.std.specs.Prelude.{◌≡◌, false, ◌++◌, ◌+◌, ◌≤◌, length};
ghost use Rattle.rows.specs.Row.{tabled};
ghost use Rattle.text.specs.Wrote.{Wrote, WroteAt};
ghost use Rattle.rules.specs.Face.Shown.{headed, shown_checks, shown_steps, translated_line, shown};

use checks::say_checks;
use pieces::{say_offset, say_refusal, say_steps};
use prepare::prepare_as;
use proj::translate;
use rules::{Mode, Reading, Table};
use split::split;
use text::put;

// The table of the first n records.
fn first_of(table: Table, n: usize) -> Table
    ensures { result ≡ tabled table.steps n }
{
    let steps = table.steps;
    Table { steps, n }
}

// "prepares, then checks"
fn show_checks(text: &[u8], reading: Reading, mode: Mode, out: &mut [u8], at: usize) -> usize
    requires { at + length (shown_checks reading mode text.now) ≤ length out.old }
    ensures { WroteAt (shown_checks reading mode text.now) out.old at result out.new }
{
    let p = prepare_as(text, reading, mode, rows::empty(64));
    let answer = p.answer;
    match answer {
        Ok(n) => {
            let table = p.table;
            let steps = first_of(table, n);
            say_checks(steps, out, at)
        }
        Err(refusal) => {
            if refusal.number == 12 {
                return say_offset(refusal.place, refusal.offset, out, at);
            }
            say_refusal(refusal.number, refusal.place, out, at)
        }
    }
}

// What is said of the lines that splitting wrote, and the checks behind it.
fn show_lines(
    lines: &[u8],
    text: &[u8],
    reading: Reading,
    mode: Mode,
    out: &mut [u8],
    at: usize,
) -> usize
    requires { at + length (headed 1 false lines.now ++ shown_checks reading mode text.now) ≤ length out.old }
    ensures { WroteAt (headed 1 false lines.now ++ shown_checks reading mode text.now) out.old at result out.new }
{
    let o = say_steps(lines, out, at);
    show_checks(text, reading, mode, out, o)
}

// "splits", and what follows; b is lent to splitting.
fn show_steps(
    text: &[u8],
    reading: Reading,
    mode: Mode,
    b: &mut [u8],
    out: &mut [u8],
    at: usize,
) -> usize
    requires b_len { length b.old ≡ 65536 }
    requires text_in_bounds { at + length (shown_steps reading mode text.now) ≤ length out.old }
    ensures { WroteAt (shown_steps reading mode text.now) out.old at result out.new }
{
    let written = split(text, b);
    match written {
        Ok(n) => show_lines(&b[..n], text, reading, mode, out, at),
        Err(refusal) => say_refusal(refusal.number, refusal.place, out, at),
    }
}

// A word, and a text behind it.
fn say_words(word: &[u8], text: &[u8], out: &mut [u8], at: usize) -> usize
    requires { at + length (word.now ++ text.now) ≤ length out.old }
    ensures { WroteAt (word.now ++ text.now) out.old at result out.new }
{
    let o = put(word, out, at);
    put(text, out, o)
}

// The line of the translation.
fn say_translation(text: &[u8], out: &mut [u8], at: usize) -> usize
    requires { at + length (translated_line text.now) ≤ length out.old }
    ensures { WroteAt (translated_line text.now) out.old at result out.new }
{
    let o = say_words(b"translated: ", text, out, at);
    out[o] = 10;
    o + 1
}

// What is said of a translation, and what follows; b is lent to splitting.
fn show_translation(
    text: &[u8],
    reading: Reading,
    mode: Mode,
    b: &mut [u8],
    out: &mut [u8],
    at: usize,
) -> usize
    requires b_len { length b.old ≡ 65536 }
    requires text_in_bounds { at + length (translated_line text.now ++ shown_steps reading mode text.now) ≤ length out.old }
    ensures { WroteAt (translated_line text.now ++ shown_steps reading mode text.now) out.old at result out.new }
{
    let o = say_translation(text, out, at);
    show_steps(text, reading, mode, b, out, o)
}

// All that is printed of a definition in a reading and a mode. a is lent to translating, b to splitting; out has room for the most that can be printed.
pub fn show(
    text: &[u8],
    reading: Reading,
    mode: Mode,
    a: &mut [u8],
    b: &mut [u8],
    out: &mut [u8],
) -> usize
    requires a_len { length a.old ≡ 65536 }
    requires b_len { length b.old ≡ 65536 }
    requires in_bounds { 139264 ≤ length out.old }
    ensures { Wrote (shown reading mode text.now) out.old result out.new }
{
    let written = translate(text, a);
    match written {
        Ok(n) => show_translation(&a[..n], reading, mode, b, out, 0),
        Err(refusal) => say_refusal(refusal.number, refusal.place, out, 0),
    }
}
