// What a reader does: the next step is found by a slice and a place in it.
ghost use Rattle.std.specs.Prelude.{◌≡◌};
ghost use Rattle.rules.specs.Text.Reader.{next};

use rules::{Cursor, Found};
use text::{Kind, is_blank, run_end};

// The next step of a normalised text from the cursor on: the first piece between `|` that is not empty.
pub fn next_step(normal: &[u8], cursor: Cursor) -> Option<Found>
    ensures { result ≡ next normal.now cursor.at }
{
    let mut from = cursor.at;
    // Stays: with `split` over the pieces, the walk takes half as much time again.
    while from < normal.len() {
        let to = run_end(Kind::Piece, normal, from);
        if !is_blank(&normal[from..to]) {
            return Some(Found {
                from,
                to,
                then: Cursor { at: to },
            });
        }
        from = to + 1;
    }
    None
}
