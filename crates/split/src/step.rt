// A step's line: its words one space apart, those in front that are modifiers behind the others, and a newline. The Rust is
// `handle_prefix_modifiers` of src/token/mod.rs, whose `while` turns the words round: here the place where those in front end says it all.
ghost use Rattle.std.specs.Prelude.{◌≡◌, false, ◌+◌, ◌≤◌, length};
ghost use Rattle.rules.specs.Text.Lists.{all_of};
ghost use Rattle.rules.specs.Text.Bytes.{words, joined};
ghost use Rattle.rules.specs.Text.Split.{modifier, step_text, line};
ghost use Rattle.text.specs.Runs.{Lead};
ghost use Rattle.text.specs.Wrote.{WroteAt};
ghost use Rattle.split.specs.Lines.{IsLine};
ghost use Rattle.split.specs.Spaced.{spaced};

use text::{is_blank, lead_end, squeeze_into};

// Writes the words of src, one space apart, into dst from at.
fn words_at(src: &[u8], dst: &mut [u8], at: usize) -> usize
    requires { at + length (joined (words src.now)) ≤ length dst.old }
    ensures { WroteAt (joined (words src.now)) dst.old at result dst.new }
{
    let n = squeeze_into(src, &mut dst[at..]);
    at + n
}

// Writes the words of src, each after a space, into dst from at.
fn more_words_at(src: &[u8], dst: &mut [u8], at: usize) -> usize
    requires { at + length (spaced (words src.now)) ≤ length dst.old }
    ensures { WroteAt (spaced (words src.now)) dst.old at result dst.new }
{
    if is_blank(src) {
        return at;
    }
    dst[at] = 32;
    words_at(src, dst, at + 1)
}

// Writes a step's text into dst from at: the words behind `lead`, where the modifiers in front end, and then these.
fn step_at(step: &[u8], lead: usize, dst: &mut [u8], at: usize) -> usize
    requires lead { Lead step.now lead }
    requires step_value { all_of modifier (words step.now) ≡ false }
    requires step_in_bounds { at + length (step_text (words step.now)) ≤ length dst.old }
    ensures { WroteAt (step_text (words step.now)) dst.old at result dst.new }
{
    let o = words_at(&step[lead..], dst, at);
    more_words_at(&step[..lead], dst, o)
}

// Writes a step's line into dst from at, and tells where it ends; none if nothing but white space stands behind the modifiers in front,
// which are looked for once.
pub fn line_at(step: &[u8], dst: &mut [u8], at: usize) -> Option<usize>
    requires { at + length (line (step_text (words step.now))) ≤ length dst.old }
    ensures { IsLine (words step.now) dst.old at result dst.new }
{
    let lead = lead_end(step);
    if is_blank(&step[lead..]) {
        return None;
    }
    let o = step_at(step, lead, dst, at);
    dst[o] = 10;
    Some(o + 1)
}
