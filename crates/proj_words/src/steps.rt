// The steps of a cleaned PROJ text, one by one.
ghost use Rattle.std.specs.Prelude.{◌≡◌, true, ◌≤◌, length};
ghost use Rattle.rules.specs.Text.Lists.{non_empty};
ghost use Rattle.rules.specs.Text.Bytes.{words};

use crate::walk::next_proj;
use rules::{Cursor, Found};

// A step, which has a word.
#[derive(Clone, Copy, Drop)]
pub struct Step<'a> {
    pub text: &'a [u8],
    ghost worded: { non_empty (words text.now) ≡ true },
}

// The steps of a text, from a place on.
#[derive(Clone, Copy, Drop)]
pub struct SplitSteps<'a> {
    pub text: &'a [u8],
    pub at: usize,
    ghost inside: { at ≤ length text.now },
}

impl<'a> Iterator for SplitSteps<'a> {
    ghost use Rattle.std.specs.Iterator.{item_count};
    ghost use Rattle.proj_words.specs.Steps.{left, GivesStep};

    type Item = Step<'a>;

    ghost next_gives = { GivesStep };

    ghost remaining = { item_count left };

    fn next(&mut self) -> Option<Step<'a>> {
        let text = self.text;
        match next_proj(text, Cursor { at: self.at }) {
            None => None,
            Some(Found { from, to, then }) => {
                self.at = then.at;
                Some(Step {
                    text: &text[from..to],
                })
            }
        }
    }
}
