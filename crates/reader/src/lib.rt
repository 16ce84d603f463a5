// The walk over the steps of a normalised text: a reader that knows the text and its place in it. It is the one walk that there is; in the
// Rust it is the `split` and the `filter` of `split_into_steps`, src/token/mod.rs. `next_from` is the same with plain parameters.
#![tactic(auto)]

mod walk;

ghost use Rattle.std.specs.Prelude.{◌≡◌};
ghost use Rattle.rules.specs.Text.Reader.{next};

use rules::{Cursor, Found};
pub use walk::next_step;

// A normalised text, and the place in it from which the walk goes on.
#[derive(Clone, Copy, Drop)]
pub struct Reader<'a> {
    pub text: &'a [u8],
    pub at: usize,
}

impl<'a> Reader<'a> {
    // What the reader finds: the next step, and the place from which to go on; or the end.
    pub fn next(self) -> Option<Found>
        ensures { result ≡ next self.entry.text.now self.entry.at }
    {
        walk::next_step(self.text, Cursor { at: self.at })
    }
}

// What a reader of text finds from the place `at` on.
pub fn next_from(text: &[u8], at: usize) -> Option<Found>
    ensures { result ≡ next text.now at }
{
    let reader = Reader { text, at };
    reader.next()
}
