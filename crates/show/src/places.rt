// Signed places, as the program `steps` prints them, composed into a buffer. Each function writes its piece into out from at,
// leaves the rest of out as it was, and returns the place behind the piece.
ghost use Rattle.std.specs.Prelude.{cond, [], ◌++◌, ◌+◌, ◌≤◌, length};
ghost use Rattle.rules.specs.Text.Ascii.{ascii};
ghost use Rattle.text.specs.Wrote.{WroteAt};
ghost use Rattle.rules.specs.Face.Shown.{signed_place, two_places, four_places};

use numbers::put_digits;
use rules::Place;
use text::put;

// A word, and a minus behind it where there is one.
fn say_marked(word: &[u8], minus: bool, out: &mut [u8], at: usize) -> usize
    requires { at + length (word.now ++ cond minus (ascii "-") []) ≤ length out.old }
    ensures { WroteAt (word.now ++ cond minus (ascii "-") []) out.old at result out.new }
{
    let o = put(word, out, at);
    if minus {
        out[o] = 45;
        return o + 1;
    }
    o
}

// A place with its sign, behind a word.
fn say_signed(word: &[u8], p: Place, out: &mut [u8], at: usize) -> usize
    requires { at + length (signed_place word.now p) ≤ length out.old }
    ensures { WroteAt (signed_place word.now p) out.old at result out.new }
{
    let n = usize::from(p.axis);
    let o = say_marked(word, p.minus, out, at);
    put_digits(n, out, o)
}

// Two places with a comma between, the first behind a word.
fn say_pair(word: &[u8], p: Place, q: Place, out: &mut [u8], at: usize) -> usize
    requires { at + length (two_places word.now p q) ≤ length out.old }
    ensures { WroteAt (two_places word.now p q) out.old at result out.new }
{
    let o = say_signed(word, p, out, at);
    say_signed(b",", q, out, o)
}

// The four places, behind their word.
fn say_places(places: [Place; 4], out: &mut [u8], at: usize) -> usize
    requires { at + length (four_places places) ≤ length out.old }
    ensures { WroteAt (four_places places) out.old at result out.new }
{
    let a = places[0];
    let b = places[1];
    let c = places[2];
    let d = places[3];
    let o = say_pair(b" places ", a, b, out, at);
    say_pair(b",", c, d, out, o)
}

// The places, if they are told.
pub fn say_told(told: bool, places: [Place; 4], out: &mut [u8], at: usize) -> usize
    requires { at + length (cond told (four_places places) []) ≤ length out.old }
    ensures { WroteAt (cond told (four_places places) []) out.old at result out.new }
{
    if told {
        return say_places(places, out, at);
    }
    at
}
