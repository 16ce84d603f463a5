// Storage that is lent to a call: what the call wrote into it, and what it left of the rest.
ghost use Rattle.std.specs.Prelude.{◌≡◌, ◌+◌, ◌≤◌, length};

use crate::output::Output;
use crate::words::{end_line, say_refusal};
use rules::Refusal;

// What each byte of lent storage holds beforehand. All of it is so between two requests.
pub const UNTOUCHED: u8 = 0xaa;

// How many items behind what is lent are looked at as well.
const GUARD: usize = 16;

// The room that is lent, and the guard behind it.
#[derive(Drop)]
pub struct Lent<'a, T> {
    pub room: &'a mut [T],
    pub guard: &'a mut [T],
}

impl<'a, T> Lent<'a, T> {
    // Room for n items.
    pub fn new(storage: &'a mut [T], n: usize) -> Self
        requires { n + 16 ≤ length storage.old }
        ensures room { length result.room.now ≡ n }
        ensures guard { length result.guard.now ≡ 16 }
    {
        let (room, rest) = storage.split_at_mut(n);
        Lent {
            room,
            guard: &mut rest[..GUARD],
        }
    }
}

impl Lent<'_, u8> {
    // Is each byte behind the first n as it was? Leaves all of the storage as it was before it was lent: where it was kept, only
    // those n are written.
    fn restore(&mut self, n: usize) -> bool {
        let kept = self.is_kept(n);
        if let Some(written) = self.room.get_mut(..n) {
            written.fill(UNTOUCHED);
        }
        if !kept {
            self.room.fill(UNTOUCHED);
            self.guard.fill(UNTOUCHED);
        }
        kept
    }

    // Is each byte behind the first n as it was? It is not where n are more than were lent.
    fn is_kept(&self, n: usize) -> bool {
        match self.room.get(n..) {
            Some(rest) => are_untouched(rest) && are_untouched(self.guard),
            None => false,
        }
    }
}

// Each byte is looked at, whatever stands before it, so that the loop is quick.
fn are_untouched(bytes: &[u8]) -> bool {
    bytes.iter().fold(0, |other, b| other | (b ^ UNTOUCHED)) == 0
}

// Looks at what was lent, and says what was answered: `ok TEXT` or the refusal.
pub fn say_lent<P: Print>(
    out: &mut Output<P>,
    written: Result<usize, Refusal>,
    mut lent: Lent<u8>,
) {
    match written {
        Ok(n) => {
            out.say("ok ");
            out.hex(lent.room.get(..n).unwrap_or(&[]));
            end_line(out, lent.restore(n));
        }
        Err(refusal) => say_refusal(out, refusal, lent.restore(0)),
    }
}
