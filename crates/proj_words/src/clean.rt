// Cleaning a PROJ text before it is cut into steps: line ends, the `+` signs, comments, the normal form. The Rust is the
// first half of `parse_proj` of src/token/mod.rs, without its branch for a line that is a comment (laws_source/Branch).
ghost use Rattle.std.specs.Prelude.{◌≡◌, ◌*◌, ◌<◌, ◌≤◌, length};
ghost use Rattle.laws_text.specs.Sizes.{weight};
ghost use Rattle.text.specs.Wrote.{Wrote, Holds};
ghost use Rattle.proj_words.specs.Clean.{gap, signless, spaced, unsigned, cleaned};

use normalise::{lines_into, newlines_into, normal_of};
use text::{Edge, start_of, starts_at, trim};

// Is it a space or a newline?
fn is_gap(b: u8) -> bool
    ensures { result ≡ gap b }
{
    b == b' ' || b == b'\n'
}

// Writes src with a space for each `+` that follows a space or a newline, and for what it follows.
fn signless_into(src: &[u8], dst: &mut [u8]) -> usize
    requires { length (signless src.now) ≤ length dst.old }
    ensures { Wrote (signless src.now) dst.old result dst.new }
{
    let mut rest = src;
    let mut o = 0;
    while let Some((b, after)) = rest.split_first() {
        if is_gap(*b) && starts_at(after, 0, b"+") {
            dst[o] = b' ';
            rest = &after[1..];
        } else {
            dst[o] = *b;
            rest = after;
        }
        o += 1;
    }
    o
}

// Writes the text with its line ends made newlines, and a space for each `+` that follows a space or a newline, into b; a
// is room to work in.
fn space_into(text: &[u8], a: &mut [u8], b: &mut [u8]) -> usize
    requires text_in_bounds { weight text.now ≤ length a.old }
    requires text_in_bounds_2 { weight text.now ≤ length b.old }
    ensures { Holds (spaced text.now) result b.new }
{
    let n = newlines_into(text, b, a);
    signless_into(&a[..n], b)
}

// The part of s without white space at both ends, and then without the `+` in front.
fn unsign(s: &[u8]) -> &[u8]
    ensures { result.now ≡ unsigned s.now }
{
    let t = trim(Edge::White, s);
    let k = start_of(Edge::Byte(43), t);
    &t[k..]
}

// The cleaned text, in the first bytes of a; b and c are room to work in.
pub fn clean_into(text: &[u8], a: &mut [u8], b: &mut [u8], c: &mut [u8]) -> usize
    requires text_in_bounds { 10 * length text.now ≤ length a.old }
    requires text_in_bounds_2 { 10 * length text.now < length b.old }
    requires text_in_bounds_3 { 10 * length text.now ≤ length c.old }
    ensures { Holds (cleaned text.now) result a.new }
{
    let n = space_into(text, a, c);
    let m = lines_into(unsign(&c[..n]), b);
    normal_of(&b[..m], a, c)
}
