// Walks over a PROJ text that has been cleaned: over its words, and over the steps between its `step` words. The Rust is the
// `split(" step ")` in `parse_proj` of src/token/mod.rs, with what it filters and trims.
ghost use Rattle.std.specs.Prelude.{◌≡◌, false, ◌≤◌, length, drop};
ghost use Rattle.rules.specs.Proj.Words.{is_step};
ghost use Rattle.laws_text.specs.Passes.{in_word};
ghost use Rattle.proj_words.specs.Words.{FoundWord};
ghost use Rattle.proj_words.specs.Cuts.{IsPiece, IsStart, beginning, FoundStep};

use rules::{Cursor, Found};
use text::{Kind, is_same, run_end};

// A word of a text, from its first byte up to the byte after its last.
#[derive(Clone, Copy, Drop)]
pub struct Span {
    pub from: usize,
    pub to: usize,
}

// The end of a piece between two `step` words, and where the next one begins.
#[derive(Clone, Copy, Drop)]
pub struct Piece {
    pub end: usize,
    pub then: usize,
}

// The first word of s from k on.
pub fn next_word(s: &[u8], k: usize) -> Option<Span>
    requires { k ≤ length s.now }
    ensures { FoundWord s.now k result }
{
    let from = run_end(Kind::White, s, k);
    let to = run_end(Kind::Word, s, from);
    if from < to {
        return Some(Span { from, to });
    }
    None
}

// The words of a text, one by one, each as a part of it.
#[derive(Clone, Copy, Drop)]
pub struct SplitWhite<'a> {
    pub rest: &'a [u8],
}

impl<'a> Iterator for SplitWhite<'a> {
    ghost use Rattle.std.specs.Iterator.{YieldsFirstRef, item_count};
    ghost use Rattle.proj_words.specs.Words.{left};

    type Item = &'a [u8];

    ghost next_gives = { YieldsFirstRef left };

    ghost remaining = { item_count left };

    fn next(&mut self) -> Option<&'a [u8]> {
        let text = self.rest;
        let word = next_word(text, 0)?;
        self.rest = &text[word.to..];
        Some(&text[word.from..word.to])
    }
}

// Is it the word `step`?
fn is_step(word: &[u8]) -> bool
    ensures { result ≡ is_step word.now }
{
    is_same(word, b"step")
}

// The piece from k on, which is behind a word: up to the next `step`, or to the end.
fn piece_from(n: &[u8], k: usize) -> Piece
    requires k_in_bounds { k ≤ length n.now }
    requires n_value { in_word (drop k n.now) ≡ false }
    ensures { IsPiece n.now k result }
{
    let mut at = k;
    while let Some(word) = next_word(n, at) {
        if is_step(&n[word.from..word.to]) {
            return Piece {
                end: at,
                then: word.to,
            };
        }
        at = word.to;
    }
    Piece {
        end: at,
        then: n.len(),
    }
}

// Past a `step` in front of everything: from there on the steps follow as after any other `step`.
fn start_of(n: &[u8], place: usize) -> usize
    requires { place ≤ length n.now }
    ensures { IsStart n.now place result }
{
    if 0 < place {
        return place;
    }
    match next_word(n, 0) {
        Some(word) if is_step(&n[word.from..word.to]) => word.to,
        _ => 0,
    }
}

// Where a step begins, whose first word stands from `from` up to `to` and whose others reach to `end`: a `step` in front
// of other words is noise.
fn unnoised(n: &[u8], from: usize, to: usize, end: usize) -> usize
    requires from_le_to { from ≤ to }
    requires to_in_bounds { to ≤ length n.now }
    ensures { result ≡ beginning n.now from to end }
{
    if to < end && is_step(&n[from..to]) {
        return to;
    }
    from
}

// The next step of a cleaned text from the cursor on.
pub fn next_proj(n: &[u8], cursor: Cursor) -> Option<Found>
    requires { cursor.at ≤ length n.now }
    ensures { FoundStep n.now cursor.at result }
{
    let start = start_of(n, cursor.at);
    let Some(word) = next_word(n, start) else {
        return None;
    };
    let piece = piece_from(n, word.to);
    Some(Found {
        from: unnoised(n, word.from, word.to, piece.end),
        to: piece.end,
        then: Cursor { at: piece.then },
    })
}
