// All steps of the answer with ` | ` between, written or only counted. Where the pipeline is inverted they are put in front of each other,
// from the end of the answer on, so that no step is read twice for its place. The Rust is the end of `parse_proj` of src/token/mod.rs.
ghost use Rattle.std.specs.Prelude.{◌≡◌, true, false, cond, [], ◌∷◌, ◌+◌, ◌≤◌, length, ltb};
ghost use Rattle.rules.specs.Text.Bytes.{words};
ghost use Rattle.rules.specs.Proj.Translate.{is_written, step_of};
ghost use Rattle.laws_proj.specs.Ordering.{whole, bar_text, gap_text, part_text, state_after};
ghost use Rattle.proj_words.specs.Cuts.{steps_from};
ghost use Rattle.proj_steps.specs.Plans.{said};
ghost use Rattle.proj.specs.Places.{Spot, Puts, Parted, texts_of, Ready, Laid, writes, backs, total_of, number_of, IsPlace, IsWriting};

use proj_steps::{Pipe, step_text};
use proj_words::{SplitSteps, Step, head_of, marks_of};

// What was put last: nothing yet; a text; or a bar with nothing behind it, where a space is owed.
#[derive(Clone, Copy, PartialEq, Eq, Drop)]
pub enum Last {
    Nothing,
    Text,
    Bar,
}

// Where the text has come to, and what was put last.
#[derive(Clone, Copy, Drop)]
pub struct Put {
    pub o: usize,
    pub last: Last,
}

impl Last {
    // What was put last, where an empty text follows.
    fn after_none(self) -> Last
        ensures { number_of result ≡ state_after (number_of self) [] }
    {
        match self {
            Last::Nothing => Last::Text,
            _ => Last::Bar,
        }
    }
}

// What a pass over the steps does: it counts only; or it puts each text behind those before it, or in front of them, in an
// answer of so many bytes in total.
#[derive(Clone, Copy, Drop)]
pub enum Pass {
    Count,
    Behind(usize),
    InFront(usize),
}

// Is the step written? The pipeline's own is not, nor one that is an emptied word alone.
fn is_written(step: Step) -> bool
    ensures { result ≡ is_written (words step.entry.text.now) }
{
    let head = head_of(step.text);
    !head.pipeline && marks_of(head.words).some
}

impl Pass {
    // The pass that writes an answer of so many bytes, from the back or not.
    pub fn writing(back: bool, total: usize) -> Pass
        ensures { IsWriting back total result }
    {
        if back {
            return Pass::InFront(total);
        }
        Pass::Behind(total)
    }

    // The place of the next l bytes after o, where it writes.
    fn place(self, o: usize, l: usize) -> Option<usize>
        requires { writes self ≡ true → o + l ≤ total_of self }
        ensures { IsPlace self o l result }
    {
        match self {
            Pass::Count => None,
            Pass::Behind(_) => Some(o),
            Pass::InFront(total) => Some(total - (o + l)),
        }
    }

    // Puts a byte at its place, or counts it.
    fn byte_out(self, b: u8, out: &mut [u8], o: usize) -> usize
        requires { Spot (writes self) (backs self) (total_of self) (b ∷ []) o out.old }
        ensures { Puts (writes self) (backs self) (total_of self) (b ∷ []) out.old o result out.new }
    {
        if let Some(at) = self.place(o, 1) {
            out[at] = b;
        }
        o + 1
    }

    // Puts a space at its place, or counts it, if it is wanted.
    fn space_out(self, wanted: bool, out: &mut [u8], o: usize) -> usize
        requires { Spot (writes self) (backs self) (total_of self) (cond wanted (32 ∷ []) []) o out.old }
        ensures { Puts (writes self) (backs self) (total_of self) (cond wanted (32 ∷ []) []) out.old o result out.new }
    {
        if wanted {
            return self.byte_out(32, out, o);
        }
        o
    }

    // Puts the bar before a text, with the space that is owed and the one in front of it.
    fn bar_out(self, put: Put, out: &mut [u8]) -> usize
        requires { Spot (writes self) (backs self) (total_of self) (bar_text (backs self) (number_of put.last) (ltb 0 put.o)) put.o out.old }
        ensures { Puts (writes self) (backs self) (total_of self) (bar_text (backs self) (number_of put.last) (ltb 0 put.o)) out.old put.o result out.new }
    {
        if put.last == Last::Nothing {
            return put.o;
        }
        let p = self.space_out(put.last == Last::Bar, out, put.o);
        let q = self.space_out(0 < put.o, out, p);
        self.byte_out(124, out, q)
    }

    // Puts the text of a step, which is l bytes long, at its place, or counts it.
    fn text_out(self, step: Step, pipe: Pipe, l: usize, out: &mut [u8], o: usize) -> usize
        requires l_value { l ≡ length (step_of (said pipe) (words step.text.now)) }
        requires spot { Spot (writes self) (backs self) (total_of self) (step_of (said pipe) (words step.text.now)) o out.old }
        ensures { Puts (writes self) (backs self) (total_of self) (step_of (said pipe.entry) (words step.entry.text.now)) out.old o result out.new }
    {
        if let Some(at) = self.place(o, l) {
            step_text(step, pipe, out, at, true);
        }
        o + l
    }

    // Puts the text of a step after a space, unless it is the first.
    fn gap_out(self, step: Step, pipe: Pipe, l: usize, put: Put, out: &mut [u8]) -> usize
        requires l_value { l ≡ length (step_of (said pipe) (words step.text.now)) }
        requires spot { Spot (writes self) (backs self) (total_of self) (gap_text (backs self) (number_of put.last) (step_of (said pipe) (words step.text.now))) put.o out.old }
        ensures { Puts (writes self) (backs self) (total_of self) (gap_text (backs self) (number_of put.last) (step_of (said pipe.entry) (words step.entry.text.now))) out.old put.o result out.new }
    {
        if put.last == Last::Nothing {
            return self.text_out(step, pipe, l, out, put.o);
        }
        let p = self.byte_out(32, out, put.o);
        self.text_out(step, pipe, l, out, p)
    }

    // Puts a step of the answer, whose text is counted first, with what stands before it.
    fn part_counted(self, step: Step, pipe: Pipe, put: Put, out: &mut [u8]) -> Put
        requires s_len_bound { length (step_of (said pipe) (words step.text.now)) ≤ 262140 }
        requires spot { Spot (writes self) (backs self) (total_of self) (part_text (backs self) (number_of put.last) (ltb 0 put.o) (step_of (said pipe) (words step.text.now))) put.o out.old }
        ensures { Parted (writes self) (backs self) (total_of self) (number_of put.last) (step_of (said pipe.entry) (words step.entry.text.now)) out.old put.o result out.new }
    {
        let p = self.bar_out(put, out);
        let l = step_text(step, pipe, out, 0, false);
        if l == 0 {
            return Put {
                o: p,
                last: put.last.after_none(),
            };
        }
        let behind = Put {
            o: p,
            last: put.last,
        };
        Put {
            o: self.gap_out(step, pipe, l, behind, out),
            last: Last::Text,
        }
    }

    // Puts a step of the answer, with what stands before it. Behind an empty one a space is owed. Only a text in front of the
    // others has to be counted before it is written.
    fn part_out(self, step: Step, pipe: Pipe, put: Put, out: &mut [u8]) -> Put
        requires s_len_bound { length (step_of (said pipe) (words step.text.now)) ≤ 262140 }
        requires spot { Spot (writes self) (backs self) (total_of self) (part_text (backs self) (number_of put.last) (ltb 0 put.o) (step_of (said pipe) (words step.text.now))) put.o out.old }
        ensures { Parted (writes self) (backs self) (total_of self) (number_of put.last) (step_of (said pipe.entry) (words step.entry.text.now)) out.old put.o result out.new }
    {
        match self {
            Pass::Behind(total) => part_on(total, step, pipe, put, out),
            _ => self.part_counted(step, pipe, put, out),
        }
    }

    // Puts all steps of a cleaned text, or counts how long they are together.
    pub fn all_out(self, n: &[u8], pipe: Pipe, out: &mut [u8]) -> usize
        requires n_len_bound { length n.now ≤ 40960 }
        requires g_len_bound { length pipe.globals.now ≤ 40960 }
        requires ready { Ready (writes self) (total_of self) (whole (backs self) (texts_of (said pipe) (steps_from n.now 0))) out.old }
        ensures { Laid (writes self) (whole (backs self) (texts_of (said pipe.entry) (steps_from n.now 0))) out.old result out.new }
    {
        let mut put = Put {
            o: 0,
            last: Last::Nothing,
        };
        for step in (SplitSteps { text: n, at: 0 }) {
            if is_written(step) {
                put = self.part_out(step, pipe, put, out);
            }
        }
        put.o
    }
}

// Writes a step of the answer behind the others, with what stands before it. Its text is written a place behind the bar;
// the space between follows only where the text is not empty.
fn part_on(total: usize, step: Step, pipe: Pipe, put: Put, out: &mut [u8]) -> Put
    requires { Spot true false total (part_text false (number_of put.last) (ltb 0 put.o) (step_of (said pipe) (words step.text.now))) put.o out.old }
    ensures { Parted true false total (number_of put.last) (step_of (said pipe.entry) (words step.entry.text.now)) out.old put.o result out.new }
{
    let p = Pass::Behind(total).bar_out(put, out);
    if put.last == Last::Nothing {
        return Put {
            o: step_text(step, pipe, out, p, true),
            last: Last::Text,
        };
    }
    if total <= p {
        return Put {
            o: p,
            last: Last::Bar,
        };
    }
    let r = step_text(step, pipe, out, p + 1, true);
    if r == p + 1 {
        return Put {
            o: p,
            last: Last::Bar,
        };
    }
    out[p] = 32;
    Put {
        o: r,
        last: Last::Text,
    }
}
