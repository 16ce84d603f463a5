// Output, gathered in a buffer: where the buffer is full, what it holds is written out. A write that fails is not told.
ghost use Rattle.std.specs.Prelude.{◌≡◌, ◌+◌, ◌*◌, ◌≤◌, length};

use std::fmt;
use std::fmt::{Display, Write};
use std::io::Print;

// How many bytes are put at a time: the buffer has room for twice as many.
const PIECE: usize = 4096;

// What is still to be written is the first `at` bytes of the buffer.
#[derive(Drop)]
pub struct Output<'a, P: Print> {
    to: &'a P,
    buffer: [u8; 65536],
    at: usize,
    ghost in_buffer: { at ≤ 65536 },
}

impl<'a, P: Print> Output<'a, P> {
    pub fn new(to: &'a P) -> Self {
        Output {
            to,
            buffer: [0; 65536],
            at: 0,
        }
    }

    // Writes out what the buffer holds.
    pub fn flush(&mut self)
        ensures { self.new.at ≡ 0 }
    {
        let _ = self.to.write_all(&self.buffer[..self.at]);
        self.at = 0;
    }

    // Sees to room for n bytes.
    fn make_room(&mut self, n: usize)
        requires { n ≤ 65536 }
        ensures { self.new.at + n ≤ 65536 }
    {
        if self.buffer.len() - self.at < n {
            self.flush();
        }
    }

    // Puts bytes, which there is room for, as they are.
    fn put(&mut self, bytes: &[u8])
        requires { self.old.at + length bytes.now ≤ 65536 }
        ensures { self.new.at ≡ self.old.at + length bytes.now }
    {
        let end = self.at + bytes.len();
        self.buffer[self.at..end].copy_from_slice(bytes);
        self.at = end;
    }

    // Puts two digits for each byte, which there is room for.
    fn put_hex(&mut self, bytes: &[u8])
        requires { self.old.at + length bytes.now * 2 ≤ 65536 }
        ensures { self.new.at ≡ self.old.at + length bytes.now * 2 }
    {
        let end = self.at + bytes.len() * 2;
        for (digits, b) in self.buffer[self.at..end].chunks_exact_mut(2).zip(bytes) {
            digits.copy_from_slice(&answers_wire::hex_digits(*b));
        }
        self.at = end;
    }

    // Words as they are printed.
    pub fn say<D: Display + Drop>(&mut self, words: D) {
        let _ = self.write(words);
    }

    // Bytes in hex, `-` where there are none.
    pub fn hex(&mut self, bytes: &[u8]) {
        if bytes.is_empty() {
            self.say('-');
        }
        for piece in bytes.chunks(PIECE) {
            self.make_room(piece.len() * 2);
            self.put_hex(piece);
        }
    }

    // A floating-point number: its bit pattern, or `nan`.
    pub fn pattern(&mut self, x: f64) {
        if x.is_nan() {
            self.say("nan");
        } else {
            self.make_room(16);
            self.put_pattern(x.to_bits());
        }
    }

    // Puts the sixteen digits of a bit pattern, which there is room for.
    fn put_pattern(&mut self, bits: u64)
        requires { self.old.at + 16 ≤ 65536 }
        ensures { self.new.at ≡ self.old.at + 16 }
    {
        self.put_hex(&bits.to_be_bytes());
    }

    // A list's items, each said by `one`, with commas between; `-` where there are none.
    pub fn list<T, F: Fn(&mut Self, &T)>(&mut self, items: &[T], one: F)
        requires { F.IsAlwaysCallable one }
    {
        if items.is_empty() {
            self.say('-');
        }
        for (i, item) in items.iter().enumerate() {
            if 0 < i {
                self.say(',');
            }
            one(self, item);
        }
    }
}

impl<P: Print> Write for Output<'_, P> {
    fn write_str(&mut self, text: &str) -> fmt::Result {
        for piece in text.as_bytes().chunks(PIECE) {
            self.make_room(piece.len());
            self.put(piece);
        }
        Ok(())
    }
}
