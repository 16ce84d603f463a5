// Numbers, refusals and the numbered steps, as the program `steps` prints them, composed into a buffer. Each function writes its
// piece into out from at, leaves the rest of out as it was, and returns the place behind the piece.
ghost use Rattle.std.specs.Prelude.{◌≡◌, false, ◌++◌, ◌+◌, ◌≤◌, length};
ghost use Rattle.rules.specs.Text.Ascii.{ascii};
ghost use Rattle.rules.specs.Text.Split.{line};
ghost use Rattle.text.specs.Wrote.{WroteAt};
ghost use Rattle.rules.specs.Face.Shown.{counted, refusal_text, offset_text, headed};

use numbers::put_digits;
use text::put;

// A word and a number behind it.
pub fn say_counted(word: &[u8], n: usize, out: &mut [u8], at: usize) -> usize
    requires { at + length (counted word.now n) ≤ length out.old }
    ensures { WroteAt (counted word.now n) out.old at result out.new }
{
    let o = put(word, out, at);
    put_digits(n, out, o)
}

// A refusal: its number and its place.
pub fn say_refused(number: u8, place: usize, out: &mut [u8], at: usize) -> usize
    requires { at + length (refusal_text number place) ≤ length out.old }
    ensures { WroteAt (refusal_text number place) out.old at result out.new }
{
    let n = usize::from(number);
    let o = say_counted(b"refused ", n, out, at);
    say_counted(b" ", place, out, o)
}

// "A refusal ends its output with a line."
pub fn say_refusal(number: u8, place: usize, out: &mut [u8], at: usize) -> usize
    requires { at + length (line (refusal_text number place)) ≤ length out.old }
    ensures { WroteAt (line (refusal_text number place)) out.old at result out.new }
{
    let o = say_refused(number, place, out, at);
    out[o] = 10;
    o + 1
}

// The refusal that has an offset: its number 12, its place and the offset.
fn say_faulty(place: usize, offset: usize, out: &mut [u8], at: usize) -> usize
    requires { at + length (offset_text place offset) ≤ length out.old }
    ensures { WroteAt (offset_text place offset) out.old at result out.new }
{
    let o = say_refused(12, place, out, at);
    say_counted(b" ", offset, out, o)
}

// The same as a line.
pub fn say_offset(place: usize, offset: usize, out: &mut [u8], at: usize) -> usize
    requires { at + length (line (offset_text place offset)) ≤ length out.old }
    ensures { WroteAt (line (offset_text place offset)) out.old at result out.new }
{
    let o = say_faulty(place, offset, out, at);
    out[o] = 10;
    o + 1
}

// A step's number, and a word behind it.
pub fn say_step(k: usize, word: &[u8], out: &mut [u8], at: usize) -> usize
    requires { at + length (counted (ascii "step ") k ++ word.now) ≤ length out.old }
    ensures { WroteAt (counted (ascii "step ") k ++ word.now) out.old at result out.new }
{
    let o = say_counted(b"step ", k, out, at);
    put(word, out, o)
}

// The lines that splitting wrote, each behind its heading.
pub fn say_steps(lines: &[u8], out: &mut [u8], at: usize) -> usize
    requires { at + length (headed 1 false lines.now) ≤ length out.old }
    ensures { WroteAt (headed 1 false lines.now) out.old at result out.new }
{
    let mut done = 0;
    let mut begun = false;
    let mut i = 0;
    let mut o = at;
    while i < lines.len() {
        if begun {
            let b = lines[i];
            out[o] = b;
            o += 1;
            if b == 10 {
                done += 1;
                begun = false;
                i += 1;
            } else {
                i += 1;
            }
        } else {
            o = say_step(done + 1, b": ", out, o);
            begun = true;
        }
    }
    o
}
