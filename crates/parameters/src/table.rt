// A step's parameters as a fixed table of 32 parts of a text, kept in byte order as it fills: the `BTreeMap` of
// `split_into_parameters` of src/token/mod.rs.
ghost use Rattle.std.specs.Prelude.{◌≡◌};
ghost use Rattle.parameters.specs.Parts.{Good, Good-prop, Within, value_at};
ghost use Rattle.parameters.specs.Elements.{Spelt, Spelt-prop};

use std::cmp::Ordering;

// A parameter as two parts of a text: its key and its value, each from a place up to another.
#[derive(Clone, Copy, Drop)]
pub struct Part {
    pub key: usize,
    pub key_end: usize,
    pub value: usize,
    pub value_end: usize,
}

// A text to be cut, the first n bytes of s: behind it stand the words that a parameter may have and the text has not, `_name` and
// `true`, and then s ends.
#[derive(Clone, Copy, Drop)]
pub struct Source<'a> {
    pub s: &'a [u8],
    pub n: usize,
    pub ghost spelt: { Spelt s.now n } by { Spelt-prop s.now n },
}

// The parameters of a text: a table of 32 parts of it, of which the first n are in use.
// Stays: there is no heap, and the table is of fixed size.
#[derive(Clone, Copy, Drop)]
pub struct Parameters<'a> {
    pub source: Source<'a>,
    pub parts: [Part; 32],
    pub n: usize,
    pub ghost good: { Good source.s.now (record { parts = parts; n = n }) } by { Good-prop source.s.now (record { parts = parts; n = n }) },
}

// Where in a text the value of p begins: of a bare word the byte after the key, for its value is the `true` in the nine bytes behind the
// text.
pub fn value_at(s: &[u8], p: Part) -> usize
    requires { Within s.now p }
    ensures { result ≡ value_at s.now p }
{
    if s.len() - p.value < 9 {
        return p.key_end;
    }
    p.value
}

// The table has no room for one more.
#[derive(Clone, Copy, Drop)]
pub struct Full;

impl<'a> Parameters<'a> {
    ghost use Rattle.std.specs.Prelude.{◌≡◌, ◌<◌, ◌+◌, ◌≤◌, [], length, OnOk, OnErr};
    ghost use Rattle.parameters.specs.Parts.{held, Within, key_of, value_of, value_at, parts_with, Found};
    ghost use Rattle.parameters.specs.Tables.{text, table_in};

    // None yet.
    pub fn new(source: Source<'a>) -> Parameters<'a>
        ensures from { result.source ≡ source.entry }
        ensures none { held (table_in result) ≡ [] }
    {
        let none = Part {
            key: 0,
            key_end: 0,
            value: 0,
            value_end: 0,
        };
        Parameters {
            source: source,
            parts: [none; 32],
            n: 0,
        }
    }

    // The parts in the table, in its order.
    pub fn held(&self) -> &[Part]
        ensures { result.now ≡ held (table_in self.now) }
    {
        &self.parts[..self.n]
    }

    pub fn key(&self, p: Part) -> &'a [u8]
        requires { Within (text self.now) p }
        ensures { result.now ≡ key_of (text self.now) p }
    {
        &self.source.s[p.key..p.key_end]
    }

    pub fn value(&self, p: Part) -> &'a [u8]
        requires { Within (text self.now) p }
        ensures { result.now ≡ value_of (text self.now) p }
    {
        &self.source.s[p.value..p.value_end]
    }

    // Where in the text the value of p begins.
    pub fn value_at(&self, p: Part) -> usize
        requires { Within (text self.now) p }
        ensures { result ≡ value_at (text self.now) p }
    {
        value_at(self.source.s, p)
    }

    // The place of the part with the key of p; or else the place where p goes, in front of the first key that comes after its own.
    fn place_of(&self, p: Part) -> Result<usize, usize>
        requires { Within (text self.now) p }
        ensures { Found (text self.now) (held (table_in self.now)) p result }
    {
        for (i, q) in self.held().iter().enumerate() {
            match self.key(p).cmp(&self.key(*q)) {
                Ordering::Less => return Err(i),
                Ordering::Equal => return Ok(i),
                Ordering::Greater => {}
            }
        }
        Err(self.n)
    }

    // Enters p into the table: in the place of the part with its key, or else where it goes.
    pub fn enter(&mut self, p: Part) -> Result<(), Full>
        requires { Within (text self.old) p }
        ensures from { self.new.source ≡ self.old.source }
        ensures entered { OnOk result (held (table_in self.new) ≡ parts_with (text self.old) p (held (table_in self.old))) }
        ensures full { OnErr result (32 < length (parts_with (text self.old) p (held (table_in self.old)))) }
    {
        match self.place_of(p) {
            Ok(at) => {
                self.parts[at] = p;
                Ok(())
            }
            Err(at) => self.insert(at, p),
        }
    }

    // Puts p in at `at`, and what was from there on is moved up by one.
    fn insert(&mut self, at: usize, p: Part) -> Result<(), Full>
        requires within { Within (text self.old) p }
        requires found { Found (text self.old) (held (table_in self.old)) p (Err at) }
        ensures from { self.new.source ≡ self.old.source }
        ensures entered { OnOk result (held (table_in self.new) ≡ parts_with (text self.old) p (held (table_in self.old))) }
        ensures full { OnErr result (32 < length (parts_with (text self.old) p (held (table_in self.old)))) }
    {
        if self.n == 32 {
            return Err(Full);
        }
        self.parts.copy_within(at..self.n, at + 1);
        self.parts[at] = p;
        self.n += 1;
        Ok(())
    }
}
