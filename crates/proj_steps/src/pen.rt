// Writing a text into a lent buffer, or only counting how long it gets: one pass serves both. A pass that counts leaves
// the buffer as it is. The Rust makes new strings instead.
ghost use Rattle.std.specs.Prelude.{◌∷◌, [], ◌++◌, cond};
ghost use Rattle.proj_steps.specs.Adds.{gapped, Room};
ghost use Rattle.proj_steps.specs.Pens.{Added, Worded};

use text::put;

// Does it write, or only count; where the text has come to; whether a word has been written; and whether an `inv` is owed
// after the first element.
// Stays: the buffer is lent to each method. As a field it would be no plainer: each method had to promise besides that the field
// keeps its reference.
#[derive(Clone, Copy, Drop)]
pub struct Pen {
    pub write: bool,
    pub at: usize,
    pub begun: bool,
    pub owed: bool,
}

impl Pen {
    // Adds x as it is.
    pub fn add(&mut self, x: &[u8], out: &mut [u8])
        requires { Room self.old.write x.now self.old.at out.old }
        ensures { Added x.now self.old out.old self.new out.new }
    {
        self.at = if self.write {
            put(x, out, self.at)
        } else {
            self.at + x.len()
        };
    }

    // Adds the space in front of a word, if words have begun.
    fn gap(&mut self, out: &mut [u8])
        requires { Room self.old.write (cond self.old.begun (32 ∷ []) []) self.old.at out.old }
        ensures { Added (cond self.old.begun (32 ∷ []) []) self.old out.old self.new out.new }
    {
        if self.begun {
            self.add(b" ", out);
        }
    }

    // Adds a word in two pieces, after a space if words have begun.
    pub fn word(&mut self, front: &[u8], x: &[u8], out: &mut [u8])
        requires { Room self.old.write (gapped self.old.begun (front.now ++ x.now)) self.old.at out.old }
        ensures { Worded (front.now ++ x.now) self.old out.old self.new out.new }
    {
        self.gap(out);
        self.add(front, out);
        self.add(x, out);
        self.begun = true;
    }
}
