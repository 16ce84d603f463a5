// The words of one PROJ step after `proj=` has changed places with the first: one by one, and what they say. Nothing is
// moved: each is a part of the step's text. The Rust is the `swap` in `parse_proj` of src/token/mod.rs.
ghost use Rattle.std.specs.Prelude.{◌≡◌, ◌<◌, ◌^◌, length};
ghost use Rattle.rules.specs.Text.Bytes.{words, starts};
ghost use Rattle.rules.specs.Proj.Words.{is_proj};
ghost use Rattle.rules.specs.Proj.Translate.{is_inv};
ghost use Rattle.proj_words.specs.Heads.{coming, IsFirst, IsMoved, IsHead};
ghost use Rattle.proj_words.specs.Facts.{IsMarked, IsMarks, FoundKey};

use crate::walk::SplitWhite;
use text::{is_same, starts_at};

// The first `proj=` of a step, if there is one, and whether `init=` stands before it.
#[derive(Clone, Copy, Drop)]
pub struct First<'a> {
    pub init: bool,
    pub proj: Option<&'a [u8]>,
}

// The exchanged words of a step, one by one: the value of `proj=` in front, until it is given; and the first word, until it
// is given in the place of `proj=`.
#[derive(Clone, Copy, Drop)]
pub struct Exchanged<'a> {
    pub front: Option<&'a [u8]>,
    pub moved: Option<&'a [u8]>,
    pub words: SplitWhite<'a>,
}

// A step's exchanged words; whether `init=` stands before `proj=`; and whether it is `proj=pipeline`.
#[derive(Clone, Copy, Drop)]
pub struct Head<'a> {
    pub words: Exchanged<'a>,
    pub init: bool,
    pub pipeline: bool,
}

// The marks of words: is one of them `inv`, are all, and is one not empty?
#[derive(Clone, Copy, Drop)]
pub struct Marks {
    pub inv: bool,
    pub only: bool,
    pub some: bool,
}

// How many words begin with a key, at least one, and what follows it in the last.
#[derive(Clone, Copy, Drop)]
pub struct Key<'a> {
    pub count: usize,
    pub value: &'a [u8],
}

// Is it a word `proj=..`?
fn is_proj(word: &[u8]) -> bool
    ensures { result ≡ is_proj word.now }
{
    starts_at(word, 0, b"proj=")
}

// Is it the word `inv`?
pub fn is_inv(word: &[u8]) -> bool
    ensures { result ≡ is_inv word.now }
{
    is_same(word, b"inv")
}

// Does the word begin with the key?
pub fn has_key(word: &[u8], key: &[u8]) -> bool
    ensures { result ≡ starts key.now word.now }
{
    starts_at(word, 0, key)
}

impl<'a> Iterator for Exchanged<'a> {
    ghost use Rattle.std.specs.Iterator.{YieldsFirstRef, item_count};
    ghost use Rattle.proj_words.specs.Heads.{coming};

    type Item = &'a [u8];

    ghost next_gives = { YieldsFirstRef coming };

    ghost remaining = { item_count coming };

    fn next(&mut self) -> Option<&'a [u8]> {
        if let Some(word) = self.front.take() {
            return Some(word);
        }
        let word = self.words.next()?;
        if self.moved.is_some() && is_proj(word) {
            return self.moved.take();
        }
        Some(word)
    }
}

// Looks for the first `proj=` of a step.
fn first_proj(s: &[u8]) -> First<'_>
    ensures { IsFirst (words s.now) result }
{
    let mut init = false;
    for word in (SplitWhite { rest: s }) {
        if is_proj(word) {
            return First {
                init,
                proj: Some(word),
            };
        }
        if has_key(word, b"init=") {
            init = true;
        }
    }
    First { init, proj: None }
}

// The first word, if it has to change places: unless it is a `proj=` itself.
fn moved(first: Option<&[u8]>) -> Option<&[u8]>
    ensures { IsMoved first.entry result }
{
    let word = first?;
    if is_proj(word) {
        return None;
    }
    Some(word)
}

// "`proj=` changes places with the first element": what stands in front of a step, and where.
pub fn head_of(s: &[u8]) -> Head<'_>
    ensures { IsHead (words s.now) result }
{
    let First { init, proj } = first_proj(s);
    let mut words = SplitWhite { rest: s };
    let first = words.next();
    match proj {
        None => Head {
            words: Exchanged {
                front: first,
                moved: None,
                words,
            },
            init,
            pipeline: false,
        },
        Some(proj) => Head {
            words: Exchanged {
                front: Some(&proj[5..]),
                moved: moved(first),
                words,
            },
            init,
            pipeline: is_same(proj, b"proj=pipeline"),
        },
    }
}

impl Marks {
    // The marks with one word more.
    fn with(self, word: &[u8]) -> Marks
        ensures { IsMarked word.now self result }
    {
        let inv = is_inv(word);
        Marks {
            inv: self.inv || inv,
            only: self.only && inv,
            some: self.some || !word.is_empty(),
        }
    }
}

// The marks of words.
pub fn marks_of(words: Exchanged) -> Marks
    ensures { IsMarks (coming words.entry) result }
{
    let mut marks = Marks {
        inv: false,
        only: true,
        some: false,
    };
    for word in words {
        marks = marks.with(word);
    }
    marks
}

// How many of the words begin with the key, and what follows it in the last that does, if one does.
pub fn key_of<'a>(words: Exchanged<'a>, key: &[u8]) -> Option<Key<'a>>
    requires { length (coming words) < 2 ^ 64 }
    ensures { FoundKey (coming words.entry) key.now result }
{
    let mut count = 0;
    let mut last: Option<&'a [u8]> = None;
    for word in words {
        if has_key(word, key) {
            count += 1;
            last = Some(&word[key.len()..]);
        }
    }
    Some(Key {
        count,
        value: last?,
    })
}
