// Writing a table of parameters, each as `key=value` with a newline after it.
ghost use Rattle.std.specs.Prelude.{◌≡◌, ◌+◌, ◌-◌, ◌≤◌, SomeIff, length};
ghost use Rattle.rules.specs.Text.Refusal.{answers, Lends};
ghost use Rattle.rules.specs.Text.Parameters.{parameter_line};
ghost use Rattle.text.specs.Wrote.{Wrote, WroteAt};
ghost use Rattle.parameters.specs.Replies.{lines_of};
ghost use Rattle.parameters.specs.Tables.{text, table_in};

use crate::table::Parameters;
use rules::{NO_ROOM, Refusal};
use text::put;

// A text of so many bytes at most is small: how long the lines of its parts are is a sum that a number holds.
const SMALL: usize = 40969;

// Writes a parameter as `key=value`, with a newline after it, into dst from at.
fn line_at(key: &[u8], value: &[u8], dst: &mut [u8], at: usize) -> usize
    requires { at + length (parameter_line (record { key = key.now; value = value.now })) ≤ length dst.old }
    ensures { WroteAt (parameter_line (record { key = key.now; value = value.now })) dst.old at result dst.new }
{
    let o = put(key, dst, at);
    dst[o] = b'=';
    let e = put(value, dst, o + 1);
    dst[e] = b'\n';
    e + 1
}

impl<'a> Parameters<'a> {
    // Writes the parameters of the table, in its order, into dst from its first byte.
    fn lines_of(&self, dst: &mut [u8]) -> usize
        requires { length (lines_of (text self.now) (table_in self.now)) ≤ length dst.old }
        ensures { Wrote (lines_of (text self.now) (table_in self.now)) dst.old result dst.new }
    {
        let mut o = 0;
        for p in self.held() {
            o = line_at(self.key(*p), self.value(*p), dst, o);
        }
        o
    }

    // How many bytes the parameters of the table are, as they are written.
    fn length_of(&self) -> usize
        requires { length (text self.now) ≤ 40969 }
        ensures { result ≡ length (lines_of (text self.now) (table_in self.now)) }
    {
        let mut n = 0;
        for p in self.held() {
            n += p.key_end - p.key;
            n += p.value_end - p.value;
            n += 2;
        }
        n
    }

    // Writes the parameters of the table of a small text into out, or refuses 7.
    pub(crate) fn small_out(&self, out: &mut [u8]) -> Result<usize, Refusal>
        requires { length (text self.now) ≤ 40969 }
        ensures { Lends (answers (lines_of (text self.now) (table_in self.now))) out.old result out.new }
    {
        if out.len() < self.length_of() {
            return Err(NO_ROOM);
        }
        Ok(self.lines_of(out))
    }

    // What of so much room the parameters of the table leave, as they are written; none where they do not fit. Nothing is summed, as
    // the sum may be more than a number holds where the text is not small.
    fn left_of(&self, room: usize) -> Option<usize>
        ensures { SomeIff result (length (lines_of (text self.now) (table_in self.now)) ≤ room) (room - length (lines_of (text self.now) (table_in self.now))) }
    {
        let mut left = room;
        for p in self.held() {
            left = left.checked_sub(p.key_end - p.key)?;
            left = left.checked_sub(p.value_end - p.value)?;
            left = left.checked_sub(2)?;
        }
        Some(left)
    }

    // Writes the parameters of the table into out, or refuses 7. Its text may be of any length.
    pub fn lines_out(&self, out: &mut [u8]) -> Result<usize, Refusal>
        ensures { Lends (answers (lines_of (text self.now) (table_in self.now))) out.old result out.new }
    {
        if self.source.s.len() <= SMALL {
            return self.small_out(out);
        }
        match self.left_of(out.len()) {
            Some(_) => Ok(self.lines_of(out)),
            None => Err(NO_ROOM),
        }
    }
}
