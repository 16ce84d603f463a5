// Stripping the comments of a text, and normalising what is left. The Rust is `remove_comments` of src/token/mod.rs. Its branch
// for a line that is a comment is not here: no text reaches it (laws_source/Branch).
ghost use Rattle.std.specs.Prelude.{◌+◌, ◌*◌, ◌<◌, ◌≤◌, length};
ghost use Rattle.rules.specs.Text.Ascii.{is};
ghost use Rattle.rules.specs.Text.Bytes.{before};
ghost use Rattle.rules.specs.Text.Comments.{newlines, uncommented, lined, stripped};
ghost use Rattle.rules.specs.Text.Normal.{normal};
ghost use Rattle.laws_text.specs.Sizes.{weight};
ghost use Rattle.text.specs.Wrote.{Wrote, WroteAt, Holds};

use crate::normal::normal_of;
use text::{Edge, find, put, replace_into, trim};

// A line of fewer bytes than these is written byte by byte: to search it, and then to copy the part that was found, would
// cost more.
const SHORT: usize = 16;

// Writes a short line up to its comment into dst from at.
fn add_short(line: &[u8], dst: &mut [u8], at: usize) -> usize
    requires { at + length (before (is "#") line.now) ≤ length dst.old }
    ensures { WroteAt (before (is "#") line.now) dst.old at result dst.new }
{
    let mut o = at;
    for b in line {
        if *b == b'#' {
            return o;
        }
        dst[o] = *b;
        o += 1;
    }
    o
}

// Writes a line up to its comment, after a space, into dst from at.
fn add_line(line: &[u8], dst: &mut [u8], at: usize) -> usize
    requires { at + length (uncommented line.now) ≤ length dst.old }
    ensures { WroteAt (uncommented line.now) dst.old at result dst.new }
{
    dst[at] = b' ';
    if line.len() < SHORT {
        return add_short(line, dst, at + 1);
    }
    let end = find(line, 0, b"#");
    put(&line[..end], dst, at + 1)
}

// Writes the lines of src without their comments, each after a space.
pub fn lines_into(src: &[u8], dst: &mut [u8]) -> usize
    requires { length (lined src.now) ≤ length dst.old }
    ensures { Wrote (lined src.now) dst.old result dst.new }
{
    let mut o = 0;
    for line in src.split(|b| *b == b'\n') {
        o = add_line(line, dst, o);
    }
    o
}

// Writes the text with its line ends made newlines; a is room to work in. A text without a carriage return is copied.
pub fn newlines_into(text: &[u8], a: &mut [u8], b: &mut [u8]) -> usize
    requires text_in_bounds { weight text.now ≤ length a.old }
    requires text_in_bounds_2 { weight text.now ≤ length b.old }
    ensures { Wrote (newlines text.now) b.old result b.new }
{
    if text.len() <= find(text, 0, b"\r") {
        return put(text, b, 0);
    }
    let n = replace_into(text, b"\r\n", b"\n", a);
    replace_into(&a[..n], b"\r", b"\n", b)
}

// "strips comments": the text without them, in the first bytes of b; a is room to work in.
fn strip_into(text: &[u8], a: &mut [u8], b: &mut [u8]) -> usize
    requires text_in_bounds { weight text.now ≤ length a.old }
    requires text_in_bounds_2 { weight text.now < length b.old }
    ensures { Holds (stripped text.now) result b.new }
{
    let t = trim(Edge::White, text);
    let n = newlines_into(t, a, b);
    let m = replace_into(&b[..n], b"\n:", b"\n", a);
    lines_into(&a[..m], b)
}

// "strips comments, normalises": in the first bytes of a; b and c are room to work in.
pub fn clean_into(text: &[u8], a: &mut [u8], b: &mut [u8], c: &mut [u8]) -> usize
    requires text_in_bounds { 10 * length text.now ≤ length a.old }
    requires text_in_bounds_2 { 10 * length text.now ≤ length b.old }
    requires text_in_bounds_3 { 10 * length text.now < length c.old }
    ensures { Holds (normal (stripped text.now)) result a.new }
{
    let k = strip_into(text, a, c);
    normal_of(&c[..k], a, b)
}
