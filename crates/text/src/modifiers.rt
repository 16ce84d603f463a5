// The words `inv`, `omit_fwd` and `omit_inv`, and those of them that stand in front of a step: what `handle_prefix_modifiers` of
// src/token/mod.rs looks for.
ghost use Rattle.std.specs.Prelude.{◌≡◌};
ghost use Rattle.rules.specs.Text.Split.{modifier};
ghost use Rattle.rules.specs.Text.Lists.{all_of};
ghost use Rattle.rules.specs.Text.Bytes.{words};
ghost use Rattle.text.specs.Runs.{Lead};

use crate::runs::{Kind, is_same, run_end};
use crate::white::is_white;

// Is the word `inv`, `omit_fwd` or `omit_inv`?
#[tactic(auto, unfolding(rules::specs::Text::Split::modifier, rules::specs::Text::Ascii::ascii))]
pub fn is_modifier(word: &[u8]) -> bool
    ensures { result ≡ modifier word.now }
{
    is_same(word, b"inv") || is_same(word, b"omit_fwd") || is_same(word, b"omit_inv")
}

// Where the modifiers in front of a step's other words end.
pub fn lead_end(s: &[u8]) -> usize
    ensures { Lead s.now result }
{
    let mut k = 0;
    loop {
        let a = run_end(Kind::White, s, k);
        let e = run_end(Kind::Word, s, a);
        if !is_modifier(&s[a..e]) {
            return k;
        }
        k = e;
    }
}

// Are all words of s modifiers?
pub fn is_lead(s: &[u8]) -> bool
    ensures { result ≡ all_of modifier (words s.now) }
{
    let pieces = s.split(|b| is_white(*b));
    let mut words = pieces.filter(|piece| !piece.is_empty());
    words.all(|word| is_modifier(word))
}
