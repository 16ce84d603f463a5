// What the program `steps` prints of the checks, composed into a buffer. Each function writes its piece into out from at, leaves
// the rest of out as it was, and returns the place behind the piece.
ghost use Rattle.std.specs.Prelude.{◌++◌, ◌+◌, ◌≤◌, length};
ghost use Rattle.rules.specs.Text.Ascii.{ascii};
ghost use Rattle.rules.specs.Pipeline.Record.{listed};
ghost use Rattle.text.specs.Wrote.{WroteAt};
ghost use Rattle.rules.specs.Face.Shown.{counted, pass_text, verdict_text, verdict_line, both_checks};

use crate::pieces::{say_counted, say_refused, say_step};
use crate::places::say_told;
use foretell::check;
use rules::{Direction, Foretold, Table, Verdict};
use text::put;

// The deepest, and the columns left.
fn say_depths(deepest: usize, left: usize, out: &mut [u8], at: usize) -> usize
    requires { at + length (counted (ascii "deepest ") deepest ++ counted (ascii " left ") left) ≤ length out.old }
    ensures { WroteAt (counted (ascii "deepest ") deepest ++ counted (ascii " left ") left) out.old at result out.new }
{
    let o = say_counted(b"deepest ", deepest, out, at);
    say_counted(b" left ", left, out, o)
}

// What a pass foretells.
fn say_passed(f: Foretold, out: &mut [u8], at: usize) -> usize
    requires { at + length (pass_text f) ≤ length out.old }
    ensures { WroteAt (pass_text f) out.old at result out.new }
{
    let places = f.places;
    let o = say_depths(f.deepest, f.left, out, at);
    say_told(f.told, places, out, o)
}

// A verdict: what a pass foretells, the step at fault, or the refusal.
fn say_judged(f: Foretold, out: &mut [u8], at: usize) -> usize
    requires { at + length (verdict_text f.verdict f) ≤ length out.old }
    ensures { WroteAt (verdict_text f.verdict f) out.old at result out.new }
{
    let v = f.verdict;
    match v {
        Verdict::Passes => say_passed(f, out, at),
        Verdict::TooFew(k) => say_step(k, b" too few", out, at),
        Verdict::TooMany(k) => say_step(k, b" too many", out, at),
        Verdict::Refused { number, place } => say_refused(number, place, out, at),
    }
}

// A direction, and the verdict behind it.
fn say_verdict(direction: &[u8], f: Foretold, out: &mut [u8], at: usize) -> usize
    requires { at + length (direction.now ++ verdict_text f.verdict f) ≤ length out.old }
    ensures { WroteAt (direction.now ++ verdict_text f.verdict f) out.old at result out.new }
{
    let o = put(direction, out, at);
    say_judged(f, out, o)
}

// The line of a check, with its newline.
fn say_check(direction: &[u8], f: Foretold, out: &mut [u8], at: usize) -> usize
    requires { at + length (verdict_line direction.now f) ≤ length out.old }
    ensures { WroteAt (verdict_line direction.now f) out.old at result out.new }
{
    let o = say_verdict(direction, f, out, at);
    out[o] = 10;
    o + 1
}

// "checks forward and inverse"
pub fn say_checks(table: Table, out: &mut [u8], at: usize) -> usize
    requires { at + length (both_checks (listed table)) ≤ length out.old }
    ensures { WroteAt (both_checks (listed table)) out.old at result out.new }
{
    let forward = check(table, Direction::Forward);
    let o = say_check(b"forward: ", forward, out, at);
    let inverse = check(table, Direction::Inverse);
    say_check(b"inverse: ", inverse, out, o)
}
