// The lines of the input; a line and its fields, which stand one space apart; and any text cut at each byte of one kind.
ghost use Rattle.std.specs.Prelude.{◌≡◌, ◌+◌, ◌<◌, ◌≤◌, ◌==◌, IfSome, count_by, length};

// How many parts s has, cut at each byte b: one, and one more for each b.
pub fn parts(s: &[u8], b: u8) -> usize
    ensures { result ≡ count_by (λ x. x == b) s.now + 1 }
{
    s.iter().filter(|x| **x == b).count() + 1
}

// Part k of s, counted from 0; nothing where s has fewer.
pub fn part(s: &[u8], b: u8, k: usize) -> &[u8] {
    s.split(|x| *x == b).nth(k).unwrap_or(&[])
}

// How many fields the line has.
pub fn fields(line: &[u8]) -> usize {
    parts(line, b' ')
}

// The line's field k, counted from 0; nothing where the line has fewer.
pub fn field(line: &[u8], k: usize) -> &[u8] {
    part(line, b' ', k)
}

// The place of the last newline of the input, whose first `seen` bytes have none.
pub fn last_newline(input: &[u8], seen: usize) -> Option<usize>
    ensures { IfSome result (λ n. (seen ≤ n) × (n < length input.now)) }
{
    let new = input.get(seen..)?;
    let last = new.iter().rposition(|b| *b == b'\n')?;
    Some(seen + last)
}
