// Judging one step, from its text to its record or to its lowest number of 1, 6, 9 to 14.
ghost use Rattle.std.specs.Prelude.{◌≡◌, ◌+◌, ◌≤◌, length};
ghost use Rattle.rules.specs.Text.Bytes.{words, joined};
ghost use Rattle.rules.specs.Text.Normal.{normal};
ghost use Rattle.laws_text.specs.Sizes.{weight};
ghost use Rattle.parameters.specs.Tables.{front, text};
ghost use Rattle.prepare.specs.Lookup.{placed_in};
ghost use Rattle.prepare.specs.Records.{reply_is};
ghost use Rattle.prepare.specs.StepReply.{Roomy, named_reply, placed_reply, cut_reply, text_reply, step_reply};

use crate::faults::{Fault, lowest_of};
use crate::keys::name_of;
use crate::own::own_rule;
use crate::values::value_of;
use normalise::normal_of;
use parameters::{Full, Parameters, Source};
use rules::{Mode, Name, Step};
use split::line_at;
use text::{Kind, is_blank, put, run_end};

// "a text, or in preparing one step's text, is over 4,096 bytes": 1
const MOST: usize = 4096;

// Over so many bytes; modifiers alone; too many parameters; and no operator name, or not one of the five.
const LONG: Fault = Fault { number: 1, at: 0 };

const MODIFIERS: Fault = Fault { number: 6, at: 0 };

const MANY_PARAMETERS: Fault = Fault { number: 9, at: 0 };

const UNNAMED: Fault = Fault { number: 10, at: 0 };

// Judges the parameters of a step of that name, in a mode: the lowest of 11 to 13, then 14.
fn judge_named(table: &Parameters, name: Name, mode: Mode) -> Result<Step, Fault>
    requires { length (text table.now) ≤ 40969 }
    ensures { reply_is result ≡ named_reply mode name (placed_in table.now) }
{
    let low = lowest_of(table, name);
    if low.number < 14 {
        return Err(Fault {
            number: low.number,
            at: low.at,
        });
    }
    own_rule(table, name, mode, low)
}

// Judges a step's parameters: 10 for a name that is none of the five, then the others.
fn judge(table: &Parameters, mode: Mode) -> Result<Step, Fault>
    requires { length (text table.now) ≤ 40969 }
    ensures { reply_is result ≡ placed_reply mode (placed_in table.now) }
{
    let Some(word) = value_of(table, b"_name") else {
        return Err(UNNAMED);
    };
    match name_of(word) {
        Some(name) => judge_named(table, name, mode),
        None => Err(UNNAMED),
    }
}

// Judges a step's text as it is cut into parameters, its words one space apart: 9, then its parameters.
fn judge_cut(source: Source, mode: Mode) -> Result<Step, Fault>
    requires spaced { front source ≡ joined (words (front source)) }
    requires small { length source.s.now ≤ 40969 }
    ensures { reply_is result ≡ cut_reply mode (words (front source.entry)) }
{
    let mut table = Parameters::new(source);
    match table.enter_cut() {
        Ok(()) => judge(&table, mode),
        Err(Full) => Err(MANY_PARAMETERS),
    }
}

// Judges a normalised step: 10 for a text with a separator, which is no name; 6 for modifiers alone. What is left is written out as it is
// cut into parameters, leading modifiers turned to the end, into b.
fn judge_text(s: &[u8], mode: Mode, b: &mut [u8]) -> Result<Step, Fault>
    requires s_len_bound { length s.now ≤ 4096 }
    requires s_in_bounds { length s.now + 9 ≤ length b.old }
    ensures { reply_is result ≡ text_reply mode s.now }
{
    let e = run_end(Kind::Piece, s, 0);
    if e < s.len() {
        return Err(UNNAMED);
    }
    if is_blank(s) {
        return Err(UNNAMED);
    }
    let Some(end) = line_at(s, b, 0) else {
        return Err(MODIFIERS);
    };
    let n = end - 1;
    let m = put(b"_nametrue", b, n);
    judge_cut(Source { s: &b[..m], n: n }, mode)
}

// Judges a step's text, which is "normalised again when cut into parameters"; a and b are room to work in.
fn prepare_text(text: &[u8], mode: Mode, a: &mut [u8], b: &mut [u8]) -> Result<Step, Fault>
    requires text_bound { weight text.now ≤ 4096 }
    requires text_in_bounds { weight text.now ≤ length a.old }
    requires text_in_bounds_2 { weight text.now + 9 ≤ length b.old }
    ensures { reply_is result ≡ text_reply mode (normal text.now) }
{
    let n = normal_of(text, a, b);
    judge_text(&a[..n], mode, b)
}

// Judges a step's text of any length: 1, then the others.
pub fn prepare_step(text: &[u8], mode: Mode, a: &mut [u8], b: &mut [u8]) -> Result<Step, Fault>
    requires text_in_bounds { weight text.now ≤ length text.now }
    requires roomy { Roomy (length text.now) (length a.old) (length b.old) }
    ensures { reply_is result ≡ step_reply mode text.now }
{
    if MOST < text.len() {
        return Err(LONG);
    }
    prepare_text(text, mode, a, b)
}
