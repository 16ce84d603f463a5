// Cutting a step's words into the table of its parameters. The Rust is the loop over the elements in `split_into_parameters` of
// src/token/mod.rs.
ghost use Rattle.std.specs.Prelude.{◌≡◌, false, [], ◌≤◌, take, drop};
ghost use Rattle.rules.specs.Text.Lists.{all_of};
ghost use Rattle.rules.specs.Text.Bytes.{words, joined};
ghost use Rattle.rules.specs.Text.Split.{modifier};
ghost use Rattle.parameters.specs.Parts.{held, placed_in};
ghost use Rattle.parameters.specs.Elements.{IsPart, words_at, elements_at};
ghost use Rattle.parameters.specs.Tables.{text, front, table_in, EntersAll, Tabled, Cut};

use crate::table::{Full, Parameters, Part, Source};
use text::{Kind, lead_end, run_end};

// The parameter that the word of the text from `from` up to `to` is. A word without `=` is the name, if it is the first, and another
// has the value `true`.
fn part_of(source: Source, from: usize, to: usize, first: bool) -> Part
    requires { (from ≤ to) × (to ≤ source.n) }
    ensures { IsPart source.entry.s.now from to first result }
{
    let s = source.s;
    let n = source.n;
    let q = run_end(Kind::Key, &s[from..to], 0);
    if q < to - from {
        let r = run_end(Kind::Key, &s[from..to], q + 1);
        return Part {
            key: from,
            key_end: from + q,
            value: from + q + 1,
            value_end: from + r,
        };
    }
    if first {
        return Part {
            key: n,
            key_end: n + 5,
            value: from,
            value_end: to,
        };
    }
    Part {
        key: from,
        key_end: to,
        value: n + 5,
        value_end: n + 9,
    }
}

impl<'a> Parameters<'a> {
    // Enters the words of the text from `from` up to `to` into the table, one after the other, until one finds no room. The first of
    // them may be the name.
    fn enter_words(&mut self, from: usize, to: usize, first: bool) -> Result<(), Full>
        requires { (from ≤ to) × (to ≤ self.old.source.n) }
        ensures from { self.new.source ≡ self.old.source }
        ensures entered { EntersAll (text self.old) (placed_in (text self.old) (table_in self.old)) (elements_at first (words_at from (drop from (take to (text self.old))))) self.new result }
    {
        let s = self.source.s;
        let mut name = first;
        let mut k = from;
        // Stays: where a word begins is needed, and with an iterator over the words it would be counted by hand all the same.
        while k < to {
            let a = run_end(Kind::White, &s[..to], k);
            let e = run_end(Kind::Word, &s[..to], a);
            if e <= a {
                return Ok(());
            }
            self.enter(part_of(self.source, a, e, name))?;
            name = false;
            k = e;
        }
        Ok(())
    }

    // Enters the words of a step into a table of none: those after the modifiers in front, then these.
    pub fn enter_step(&mut self) -> Result<(), Full>
        requires s_value { all_of modifier (words (front self.old.source)) ≡ false }
        requires none { held (table_in self.old) ≡ [] }
        ensures from { self.new.source ≡ self.old.source }
        ensures entered { Tabled (text self.old) (words (front self.old.source)) self.new result }
    {
        let n = self.source.n;
        let k = lead_end(&self.source.s[..n]);
        self.enter_words(k, n, true)?;
        self.enter_words(0, k, false)
    }

    // Enters the words of a text that stands as it is cut into a table of none: with one space between its words, and leading modifiers
    // turned already.
    pub fn enter_cut(&mut self) -> Result<(), Full>
        requires s_value { front self.old.source ≡ joined (words (front self.old.source)) }
        requires none { held (table_in self.old) ≡ [] }
        ensures from { self.new.source ≡ self.old.source }
        ensures entered { Cut (text self.old) (words (front self.old.source)) self.new result }
    {
        let n = self.source.n;
        self.enter_words(0, n, true)
    }
}
