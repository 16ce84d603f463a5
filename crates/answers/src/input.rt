// What was read of the input and is not yet answered.
ghost use Rattle.std.specs.Prelude.{◌≡◌, ◌+◌, ◌-◌, ◌≤◌, ◌<◌, length};

use std::io::Read;

// A byte that no request begins with: it stands for the front of a line that is too long.
const NO_REQUEST: u8 = b'?';

// The first `have` bytes, in room for a line of the most bytes, and its newline.
#[derive(Drop)]
pub struct Input {
    bytes: [u8; 131073],
    have: usize,
    ghost in_room: { have ≤ 131073 },
}

impl Input {
    pub fn new() -> Self {
        Input {
            bytes: [0; 131073],
            have: 0,
        }
    }

    pub fn as_slice(&self) -> &[u8]
        ensures { length result.now ≡ self.now.have }
    {
        &self.bytes[..self.have]
    }

    // Reads once, behind what is there, and answers how many bytes are new: none where the input has ended or the read fails.
    pub fn read(&mut self, from: &mut impl Read) -> usize
        ensures { self.new.have ≡ self.old.have + result }
    {
        let new = from.read(&mut self.bytes[self.have..]).unwrap_or(0);
        self.have += new;
        new
    }

    // Moves the line that has begun, at `start`, to the front. One that begins there stays as it is, however often more of it comes.
    fn to_front(&mut self, start: usize)
        requires { start ≤ self.old.have }
        ensures { self.new.have ≡ self.old.have - start }
    {
        if 0 < start {
            self.bytes.copy_within(start..self.have, 0);
            self.have -= start;
        }
    }

    // Keeps the line that has begun, at `start`, with room behind it. Where it fills the whole room, it is too long: what is still to
    // come of it is put behind a byte that no request begins with.
    pub fn keep_from(&mut self, start: usize)
        requires { start ≤ self.old.have }
        ensures { self.new.have < 131073 }
    {
        self.to_front(start);
        if self.have == self.bytes.len() {
            self.bytes[0] = NO_REQUEST;
            self.have = 1;
        }
    }
}
