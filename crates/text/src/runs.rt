// Runs of bytes of one kind, by which a text is cut at `|`, at white space and at `=`, and texts compared: Rust's `split` and `==`.
ghost use Rattle.std.specs.Prelude.{◌≡◌, ◌≤◌, length};
ghost use Rattle.rules.specs.Text.Lists.{all_of};
ghost use Rattle.rules.specs.Text.Bytes.{white, same};
ghost use Rattle.text.specs.Runs.{Run, is_of};

use crate::white::is_white;

// Is there nothing but white space in s?
pub fn is_blank(s: &[u8]) -> bool
    ensures { result ≡ all_of white s.now }
{
    s.iter().all(|b| is_white(*b))
}

// What a run of bytes is made of.
#[derive(Clone, Copy, Drop)]
pub enum Kind {
    // anything but `|`
    Piece,
    // white space
    White,
    // anything but white space
    Word,
    // anything but `=`
    Key,
}

// Is the byte b of the kind?
fn is_of(kind: Kind, b: u8) -> bool
    ensures { result ≡ is_of kind b }
{
    match kind {
        Kind::Piece => b != 124,
        Kind::White => is_white(b),
        Kind::Word => !is_white(b),
        Kind::Key => b != 61,
    }
}

// The end of the run of bytes of the kind from `at` on: the place of the first other byte, or the length.
pub fn run_end(kind: Kind, s: &[u8], at: usize) -> usize
    requires { at ≤ length s.now }
    ensures { Run (is_of kind) s.now at result }
{
    let rest = &s[at..];
    let run = rest.iter().position(|b| !is_of(kind, *b));
    at + run.unwrap_or(rest.len())
}

// Are the two texts the same?
pub fn is_same(a: &[u8], b: &[u8]) -> bool
    ensures { result ≡ same a.now b.now }
{
    a == b
}
