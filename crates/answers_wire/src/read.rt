// Numbers and texts as the fields spell them.
ghost use Rattle.std.specs.Prelude.{◌+◌, ◌≤◌, IfSome, IsTrue, length};

use std::str::from_utf8;

// The most digits of a number, and of one with a sign.
const MOST_DIGITS: usize = 9;

const MOST_SIGNED: usize = 10;

// A number of one to nine decimal digits that is at most `most`.
pub fn read_natural(field: &[u8], most: usize) -> Option<usize>
    ensures { IfSome result (λ n. n ≤ most) }
{
    if !are_digits(field, MOST_DIGITS) {
        return None;
    }
    let n = from_utf8(field).ok()?.parse().ok()?;
    if n <= most { Some(n) } else { None }
}

// A number of one to ten decimal digits, behind a `-` where it is below zero.
pub fn read_signed(field: &[u8]) -> Option<i64>
    ensures { IfSome result (λ _. length field.now ≤ 11) }
{
    if !are_digits(without_sign(field), MOST_SIGNED) {
        return None;
    }
    from_utf8(field).ok()?.parse().ok()
}

// What stands behind the `-`, where there is one.
fn without_sign(field: &[u8]) -> &[u8]
    ensures { length field.now ≤ length result.now + 1 }
{
    field.strip_prefix(b"-").unwrap_or(field)
}

// Are these decimal digits, `most` at most?
fn are_digits(s: &[u8], most: usize) -> bool
    ensures { IsTrue result → length s.now ≤ most }
{
    s.len() <= most && s.iter().all(u8::is_ascii_digit)
}

// The bytes that lowercase hex digits spell, two digits a byte, in the first bytes of `room`; `-` spells none.
pub fn read_text<'a>(field: &[u8], room: &'a mut [u8]) -> Option<&'a [u8]>
    ensures { IfSome result (λ text. length text.now ≤ length room.old) }
{
    if field == b"-".as_slice() {
        return Some(&[]);
    }
    if field.is_empty() || field.len() % 2 != 0 {
        return None;
    }
    let text = room.get_mut(..field.len() / 2)?;
    for (byte, digits) in text.iter_mut().zip(field.chunks_exact(2)) {
        *byte = hex_digit(digits[0])? * 16 + hex_digit(digits[1])?;
    }
    Some(text)
}

// The value of a lowercase hex digit.
pub fn hex_digit(b: u8) -> Option<u8>
    ensures { IfSome result (λ d. d ≤ 15) }
{
    match b {
        b'0'..=b'9' => Some(b - b'0'),
        b'a'..=b'f' => Some(b - b'a' + 10),
        _ => None,
    }
}
