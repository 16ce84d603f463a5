// Translating a PROJ text. The Rust is `parse_proj` of src/token/mod.rs.
#![tactic(auto)]

mod layout;

ghost use Rattle.std.specs.Prelude.{◌≡◌, true, false, ◌||◌, not, ◌*◌, ◌^◌, ◌<◌, ◌≤◌, length};
ghost use Rattle.rules.specs.Text.Ascii.{ascii, is};
ghost use Rattle.rules.specs.Text.Lists.{any_of};
ghost use Rattle.rules.specs.Text.Bytes.{words, contains, in_domain};
ghost use Rattle.rules.specs.Proj.Translate.{translate, translated};
ghost use Rattle.rules.specs.Text.Refusal.{Writes, Lends};
ghost use Rattle.proj_words.specs.Cuts.{steps_from};
ghost use Rattle.proj_steps.specs.Plans.{said};
ghost use Rattle.proj.specs.Flaws.{IsStepFlaw, IsFlaw, IsPipe};

use layout::Pass;
use proj_steps::{Pipe, globals_into};
use proj_words::{SplitSteps, Step, clean_into, head_of, marks_of};
use rules::{NO_ROOM, Refusal};
use text::{find, hand_out, tested};

// A text of so few bytes, ten times as long, has room in 4,096 and one to spare.
const FEW: usize = 409;

// The refusal of the first faulty step, and its place.
#[derive(Clone, Copy, Drop)]
pub struct Flaw {
    pub number: u8,
    pub place: usize,
}

// The refusal of a step at a place, if it is at fault: 3, 4 or 5.
fn step_flaw(step: Step, pipe: Pipe, place: usize) -> Option<u8>
    ensures { IsStepFlaw (said pipe.entry) place (words step.entry.text.now) result }
{
    let head = head_of(step.text);
    if head.init {
        return Some(3);
    }
    if 1 < place && head.pipeline {
        return Some(4);
    }
    if marks_of(head.words).only && pipe.globals.is_empty() && !pipe.inverted {
        return Some(5);
    }
    None
}

// The refusal of the first faulty step: "Translation takes the first faulty step, trying 3, 4, 5."
fn flaw_of(n: &[u8], pipe: Pipe) -> Option<Flaw>
    requires { length n.now ≤ 40960 }
    ensures { IsFlaw (said pipe.entry) (steps_from n.now 0) result }
{
    for (place, step) in (1..).zip(SplitSteps { text: n, at: 0 }) {
        if let Some(number) = step_flaw(step, pipe, place) {
            return Some(Flaw { number, place });
        }
    }
    None
}

// What the first step says to the others, if it is the pipeline's; its globals are written into b.
fn pipe_of<'b>(n: &[u8], b: &'b mut [u8]) -> Pipe<'b>
    requires { length n.now ≤ length b.old }
    ensures { IsPipe (length n.now) (steps_from n.now 0) result }
{
    let mut steps = SplitSteps { text: n, at: 0 };
    let Some(step) = steps.next() else {
        return Pipe {
            globals: b"",
            inverted: false,
        };
    };
    let head = head_of(step.text);
    if !head.pipeline {
        return Pipe {
            globals: b"",
            inverted: false,
        };
    }
    let m = globals_into(step.text, head, b);
    Pipe {
        globals: &b[..m],
        inverted: marks_of(head.words).inv,
    }
}

// Translates the steps of a cleaned text into out: 3, 4, 5, then 7. The length comes first.
fn steps_out(n: &[u8], pipe: Pipe, out: &mut [u8]) -> Result<usize, Refusal>
    requires n_len_bound { length n.now ≤ 40960 }
    requires g_len_bound { length pipe.globals.now ≤ 40960 }
    ensures { Lends (translated (said pipe.entry) (steps_from n.now 0)) out.old result out.new }
{
    if let Some(flaw) = flaw_of(n, pipe) {
        return Err(Refusal {
            number: flaw.number,
            place: flaw.place,
            offset: 0,
        });
    }
    let total = Pass::Count.all_out(n, pipe, out);
    if out.len() < total {
        return Err(NO_ROOM);
    }
    Ok(Pass::writing(pipe.inverted, total).all_out(n, pipe, out))
}

// Does the text hold `|`, or lack `proj`? Then it is no PROJ text, and is answered as it is.
fn is_other(text: &[u8]) -> bool
    ensures { result ≡ (any_of (is "|") text.now || not (contains (ascii "proj") text.now)) }
{
    find(text, 0, b"|") < text.len() || text.len() <= find(text, 0, b"proj")
}

// The answer for a text that is neither too long nor outside the domain, over buffers of its own that have room for ten times
// the text. For a short text they are small: to clear large ones would cost more than the rest.
fn answer<const N: usize>(text: &[u8], out: &mut [u8]) -> Result<usize, Refusal>
    requires text_len_bound { length text.now ≤ 4096 }
    requires text_value { in_domain text.now ≡ true }
    requires text_value_2 { (any_of (is "|") text.now || not (contains (ascii "proj") text.now)) ≡ false }
    requires room { 10 * length text.now < N }
    requires size { N < 2 ^ 63 }
    ensures { Writes translate text.now out.old result out.new }
{
    let mut a = [0u8; N];
    let mut b = [0u8; N];
    let mut c = [0u8; N];
    let n = clean_into(text, &mut a, &mut b, &mut c);
    steps_out(&a[..n], pipe_of(&a[..n], &mut b), out)
}

// Translates a PROJ text into out from its first byte. It refuses 1, 2, then 3, 4, 5 for the first faulty step, then 7, and
// then out is as it was.
pub fn translate(text: &[u8], out: &mut [u8]) -> Result<usize, Refusal>
    ensures { Writes translate text.now out.old result out.new }
{
    tested(text)?;
    if is_other(text) {
        return hand_out(text, out);
    }
    if text.len() <= FEW {
        return answer::<4096>(text, out);
    }
    answer::<40961>(text, out)
}
