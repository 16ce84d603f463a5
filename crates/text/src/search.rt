// Where a text stands in another: Rust's `find`, `contains` and `starts_with`.
ghost use Rattle.std.specs.Prelude.{◌≡◌, ◌+◌, ◌<◌, ◌≤◌, length, drop};
ghost use Rattle.rules.specs.Text.Bytes.{starts};
ghost use Rattle.text.specs.Places.{ahead, Passed, Sought};

// Does src, from at, begin with old?
pub fn starts_at(src: &[u8], at: usize, old: &[u8]) -> bool
    requires { at ≤ length src.now }
    ensures { result ≡ starts old.now (drop at src.now) }
{
    src[at..].starts_with(old)
}

// Do the bytes of `front` stand at the place, one behind the other? All of them are compared, in any case.
fn agrees<const N: usize>(src: &[u8], at: usize, front: [u8; N]) -> bool
    requires { at + N ≤ length src.now }
    ensures { result ≡ starts front.entry (drop at src.now) }
{
    let mut same = true;
    for k in 0..N {
        same &= src[at + k] == front[k];
    }
    same
}

// Do the bytes of `front` stand at one of the sixteen places from `from` on, one behind the other? Every place is looked at, and the
// loop does not stop where it finds them: so the compiler can compare many bytes at once.
fn stands<const N: usize>(src: &[u8], from: usize, front: [u8; N]) -> bool
    requires some { 0 < N }
    requires in_bounds { from + 15 + N ≤ length src.now }
    ensures { Sought src.now from front.entry (from + 16) result }
{
    let mut found = false;
    for j in from..from + 16 {
        found |= agrees(src, j, front);
    }
    found
}

// Passes over bytes from `from` on, sixteen at a time, while `front` is not among them.
fn skip_to<const N: usize>(src: &[u8], from: usize, front: [u8; N]) -> usize
    requires some { 0 < N }
    requires few { N ≤ 16 }
    requires from_in_bounds { from ≤ length src.now }
    ensures { Passed src.now from front.entry result }
{
    let mut i = from;
    // Stays: where the step of sixteen ends is the answer, which a `for` over steps does not keep.
    while 15 + N <= src.len() - i {
        if stands(src, i, front) {
            return i;
        }
        i += 16;
    }
    i
}

// Passes over bytes from `from` on, at none of which old begins: its first two bytes, or its only one, are not there.
fn skip(src: &[u8], from: usize, old: &[u8]) -> usize
    requires nonzero { 0 < length old.now }
    requires from_in_bounds { from ≤ length src.now }
    ensures { Passed src.now from old.now result }
{
    match old {
        [first, second, ..] => skip_to(src, from, [*first, *second]),
        [first] => skip_to(src, from, [*first]),
        [] => from,
    }
}

// The place of the first old in src, from `from` on, or the end of src. Most bytes are not the first of old, so
// many are passed at a time.
pub fn find(src: &[u8], from: usize, old: &[u8]) -> usize
    requires nonzero { 0 < length old.now }
    requires from_in_bounds { from ≤ length src.now }
    ensures { result ≡ from + ahead old.now (drop from src.now) }
{
    let first = old[0];
    let mut i = skip(src, from, old);
    // Stays: what `skip` passes at once is no step of an iterator.
    while i < src.len() {
        if src[i] != first {
            i += 1;
        } else if starts_at(src, i, old) {
            return i;
        } else {
            i = skip(src, i + 1, old);
        }
    }
    i
}
