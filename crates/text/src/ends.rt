// Trimming, the part of a text without what stands at its ends: Rust's `trim`, `trim_matches` and `trim_start_matches`.
ghost use Rattle.std.specs.Prelude.{◌≡◌};
ghost use Rattle.rules.specs.Text.Bytes.{trimmed};
ghost use Rattle.text.specs.Places.{cut_by, LeftFrom, LeftTo};

use crate::white::is_white;

// What a trim takes away: white space, or one byte.
#[derive(Clone, Copy, Drop)]
pub enum Edge {
    White,
    Byte(u8),
}

// Does a trim by e take b away?
pub fn is_cut(e: Edge, b: u8) -> bool
    ensures { result ≡ cut_by e b }
{
    match e {
        Edge::White => is_white(b),
        Edge::Byte(c) => b == c,
    }
}

// The place of the first byte that a trim by e leaves, or the length.
pub fn start_of(e: Edge, s: &[u8]) -> usize
    ensures { LeftFrom (cut_by e) s.now result }
{
    s.iter().position(|b| !is_cut(e, *b)).unwrap_or(s.len())
}

// The place after the last byte that a trim by e leaves, or 0.
pub fn end_of(e: Edge, s: &[u8]) -> usize
    ensures { LeftTo (cut_by e) s.now result }
{
    let cut = s.iter().rev().position(|b| !is_cut(e, *b));
    s.len() - cut.unwrap_or(s.len())
}

// The part of s that a trim by e at both ends leaves.
pub fn trim(e: Edge, s: &[u8]) -> &[u8]
    ensures { result.now ≡ trimmed (cut_by e) s.now }
{
    let a = start_of(e, s);
    let t = &s[a..];
    let k = end_of(e, t);
    &t[..k]
}
