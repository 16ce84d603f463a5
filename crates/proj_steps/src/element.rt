// An element of a step of the answer, added to its text or only counted. The Rust is `tidy_proj` of src/token/mod.rs.
ghost use Rattle.std.specs.Prelude.{◌≡◌, false, [], ◌∷◌, ◌++◌};
ghost use Rattle.rules.specs.Text.Ascii.{ascii};
ghost use Rattle.rules.specs.Proj.Translate.{exchanged_mark};
ghost use Rattle.laws_proj.specs.Tidying.{ellps_of};
ghost use Rattle.proj_steps.specs.Pens.{Fits, RoomFor, RoomForAll, Emits, Pens, PensAll, owing, inserted, closing, text_of};

use crate::pen::Pen;
use proj_words::{Key, is_inv};
use text::is_same;

// An element of the answer: a word as it is, or the value of the scale.
#[derive(Clone, Copy, Drop)]
pub enum Element<'a> {
    Plain(&'a [u8]),
    Scale(&'a [u8]),
}

// The composed ellipsoid: what the words with `a=` and with `rf=` say.
#[derive(Clone, Copy, Drop)]
pub struct Ellipsoid<'a> {
    pub a: Key<'a>,
    pub rf: Key<'a>,
}

// "Omit marks are exchanged."
fn exchanged_mark(x: &[u8]) -> &[u8]
    ensures { result.now ≡ exchanged_mark x.now }
{
    if is_same(x, b"omit_fwd") {
        return b"omit_inv";
    }
    if is_same(x, b"omit_inv") {
        return b"omit_fwd";
    }
    x
}

impl Pen {
    // Adds an element that is not `inv`.
    fn plain(&mut self, x: &[u8], out: &mut [u8])
        requires { Fits (exchanged_mark x.now ∷ []) self.old out.old }
        ensures { Emits (exchanged_mark x.now ∷ []) self.old self.old.owed out.old self.new out.new }
    {
        if x.is_empty() {
            return;
        }
        self.word(b"", exchanged_mark(x), out);
    }

    // Adds the `inv` that is owed, if one is.
    fn settle(&mut self, out: &mut [u8])
        requires { Fits (owing self.old.owed) self.old out.old }
        ensures { Emits (owing self.old.owed) self.old false out.old self.new out.new }
    {
        if self.owed {
            self.word(b"", b"inv", out);
            self.owed = false;
        }
    }

    // Adds an element, and after the first the `inv` that is owed.
    fn element(&mut self, x: &[u8], out: &mut [u8])
        requires { RoomFor (x.now ∷ []) self.old out.old }
        ensures { Pens (x.now ∷ []) self.old out.old self.new out.new }
    {
        if is_inv(x) {
            return;
        }
        self.plain(x, out);
        self.settle(out);
    }

    // Adds the scale, "`k_0=`", with its value.
    fn scaled(&mut self, value: &[u8], out: &mut [u8])
        requires { RoomFor ((ascii "k_0=" ++ value.now) ∷ []) self.old out.old }
        ensures { Pens ((ascii "k_0=" ++ value.now) ∷ []) self.old out.old self.new out.new }
    {
        self.word(b"k_0=", value, out);
        self.settle(out);
    }

    // Adds "a final `ellps=a,rf`".
    fn ellps(&mut self, a: &[u8], rf: &[u8], out: &mut [u8])
        requires { RoomFor (ellps_of a.now rf.now ∷ []) self.old out.old }
        ensures { Pens (ellps_of a.now rf.now ∷ []) self.old out.old self.new out.new }
    {
        self.word(b"ellps=", a, out);
        self.add(b",", out);
        self.add(rf, out);
        self.settle(out);
    }

    // Adds the globals after the first element, "as one element at position 1", where they are still to go in.
    fn insert(&mut self, globals: Option<&[u8]>, out: &mut [u8])
        requires { RoomFor (inserted globals) self.old out.old }
        ensures { Pens (inserted globals.entry) self.old out.old self.new out.new }
    {
        let Some(g) = globals else {
            return;
        };
        if !g.is_empty() {
            self.element(g, out);
        }
    }

    // Adds an element of the step's own, and after the first the globals.
    pub fn own(&mut self, element: Element, globals: Option<&[u8]>, out: &mut [u8])
        requires { RoomFor (text_of element ∷ inserted globals) self.old out.old }
        ensures { Pens (text_of element.entry ∷ inserted globals.entry) self.old out.old self.new out.new }
    {
        match element {
            Element::Plain(x) => self.element(x, out),
            Element::Scale(value) => self.scaled(value, out),
        }
        self.insert(globals, out);
    }

    // Adds what comes last: the composed ellipsoid, and an `inv` that is still owed.
    pub fn finish(&mut self, ellipsoid: Option<Ellipsoid>, globals: Option<&[u8]>, out: &mut [u8])
        requires { RoomForAll (closing ellipsoid globals) self.old out.old }
        ensures { PensAll (closing ellipsoid.entry globals.entry) self.old out.old self.new out.new }
    {
        if let Some(e) = ellipsoid {
            self.ellps(e.a.value, e.rf.value, out);
            self.insert(globals, out);
        }
        self.settle(out);
    }
}
