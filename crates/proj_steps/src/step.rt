// A step of the answer: written word by word from the words of a PROJ step, or only counted. The Rust is `tidy_proj`, and
// what `parse_proj` does to each step, of src/token/mod.rs.
ghost use Rattle.std.specs.Prelude.{◌≡◌, ◌≤◌, ◌<◌, ◌^◌, length};
ghost use Rattle.rules.specs.Text.Bytes.{words};
ghost use Rattle.rules.specs.Proj.Translate.{step_of};
ghost use Rattle.text.specs.Wrote.{Wrote};
ghost use Rattle.proj_steps.specs.Adds.{Room, Adds};
ghost use Rattle.laws_proj.specs.Bounds.{globals_of};
ghost use Rattle.proj_words.specs.Heads.{coming, IsHead};
ghost use Rattle.proj_steps.specs.Plans.{IsCounted, IsPassed, FoundEllipsoid, ahead_of, said};

use crate::element::{Element, Ellipsoid};
use crate::pen::Pen;
use crate::pipe::Pipe;
use proj_words::{Exchanged, Head, Step, has_key, head_of, is_inv, key_of, marks_of};

// What is still to come of a step's words: so many with `a=` and with `rf=`, of which the last is left out; and the scale.
#[derive(Clone, Copy, Drop)]
pub struct Ahead {
    pub a: usize,
    pub rf: usize,
    pub scale: bool,
}

// "With no `ellps=`, the last `a=` and last `rf=` become a final `ellps=a,rf`." Most steps have no `a=`, so it is looked
// for first.
fn ellipsoid_of(words: Exchanged<'_>) -> Option<Ellipsoid<'_>>
    requires { length (coming words) < 2 ^ 64 }
    ensures { FoundEllipsoid (coming words.entry) result }
{
    let a = key_of(words, b"a=")?;
    let rf = key_of(words, b"rf=")?;
    match key_of(words, b"ellps=") {
        Some(_) => None,
        None => Some(Ellipsoid { a, rf }),
    }
}

// What comes of a word of which so many are to come, it among them: the last is left out.
fn counted<'a>(n: &mut usize, word: &'a [u8]) -> Option<Element<'a>>
    ensures { IsCounted n.old word.now result n.new }
{
    let last = *n == 1;
    *n = n.saturating_sub(1);
    if last {
        return None;
    }
    Some(Element::Plain(word))
}

impl Ahead {
    // What is to come of all words of a step.
    fn of(ellipsoid: Option<Ellipsoid>) -> Ahead
        ensures { result ≡ ahead_of ellipsoid.entry }
    {
        match ellipsoid {
            Some(e) => Ahead {
                a: e.a.count,
                rf: e.rf.count,
                scale: true,
            },
            None => Ahead {
                a: 0,
                rf: 0,
                scale: true,
            },
        }
    }

    // What comes of the next word, if it is not left out.
    fn pass<'a>(&mut self, word: &'a [u8]) -> Option<Element<'a>>
        ensures { IsPassed word.now self.old result self.new }
    {
        if has_key(word, b"a=") {
            return counted(&mut self.a, word);
        }
        if has_key(word, b"rf=") {
            return counted(&mut self.rf, word);
        }
        if self.scale && has_key(word, b"k=") {
            self.scale = false;
            return Some(Element::Scale(&word[2..]));
        }
        Some(Element::Plain(word))
    }
}

// Writes the globals: the words of the pipeline's own step but the first and `inv`, with one space between.
pub fn globals_into(s: &[u8], head: Head, dst: &mut [u8]) -> usize
    requires head { IsHead (words s.now) head }
    requires s_in_bounds { length s.now ≤ length dst.old }
    ensures { Wrote (globals_of (words s.now)) dst.old result dst.new }
{
    let mut pen = Pen {
        write: true,
        at: 0,
        begun: false,
        owed: false,
    };
    let mut words = head.words;
    words.next();
    for word in words {
        if !is_inv(word) {
            pen.word(b"", word, dst);
        }
    }
    pen.at
}

// Adds the text of a step of the answer from `at` on, or counts it.
pub fn step_text(step: Step, pipe: Pipe, out: &mut [u8], at: usize, write: bool) -> usize
    requires { Room write (step_of (said pipe) (words step.text.now)) at out.old }
    ensures { Adds write (step_of (said pipe.entry) (words step.entry.text.now)) out.old at result out.new }
{
    let head = head_of(step.text);
    let ellipsoid = ellipsoid_of(head.words);
    let mut pen = Pen {
        write,
        at,
        begun: false,
        owed: marks_of(head.words).inv != pipe.inverted,
    };
    let mut ahead = Ahead::of(ellipsoid);
    let mut globals = Some(pipe.globals);
    for word in head.words {
        if let Some(element) = ahead.pass(word) {
            pen.own(element, globals.take(), out);
        }
    }
    pen.finish(ellipsoid, globals, out);
    pen.at
}
