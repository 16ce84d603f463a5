// Floating-point numbers by their bit patterns, each of 16 lowercase hex digits. The language has no bits of a NaN: every
// NaN pattern is read as the same NaN, and a NaN is written `nan`.
ghost use Rattle.std.specs.Prelude.{◌≤◌, IfSome};

use crate::read::{hex_digit, read_natural};
use std::num::{f64_from_bits_with_nan, f64_to_bits_with_nan};

// The digits of a pattern; with the comma behind them.
const DIGITS: usize = 16;

const EACH: usize = 17;

// How many numbers the field spells, at most `most`: `-` for none, `zeros:K` for K times +0, or patterns joined by commas.
pub fn count_numbers(field: &[u8], most: usize) -> Option<usize>
    ensures { IfSome result (λ n. n ≤ most) }
{
    if field == b"-".as_slice() {
        return Some(0);
    }
    if let Some(count) = field.strip_prefix(b"zeros:") {
        return read_natural(count, most);
    }
    let n = field.len() / EACH + 1;
    if n <= most && are_patterns(field) {
        Some(n)
    } else {
        None
    }
}

// Is the field patterns joined by commas?
fn are_patterns(field: &[u8]) -> bool {
    field.len() % EACH == DIGITS && field.chunks(EACH).all(is_pattern)
}

// Is this a pattern, with a comma or nothing behind it?
fn is_pattern(spelled: &[u8]) -> bool {
    match spelled.split_at_checked(DIGITS) {
        Some((digits, [] | [b','])) => digits.iter().all(|b| hex_digit(*b).is_some()),
        _ => false,
    }
}

// Puts the numbers that the field spells into out, as many as it holds.
pub fn read_numbers(field: &[u8], out: &mut [f64]) {
    let mut spelled = field.chunks(EACH);
    for x in out.iter_mut() {
        *x = spelled.next().map_or(0.0, number);
    }
}

// Are these the numbers that the field spells?
pub fn are_numbers(field: &[u8], s: &[f64]) -> bool {
    let mut spelled = field.chunks(EACH);
    for x in s {
        if !is_same_number(*x, spelled.next().map_or(0.0, number)) {
            return false;
        }
    }
    true
}

// Is every number x?
pub fn is_all_number(s: &[f64], x: f64) -> bool {
    s.iter().all(|y| is_same_number(*y, x))
}

// The number of a pattern; +0 where there is none, as in `zeros:K`.
fn number(spelled: &[u8]) -> f64 {
    match spelled.first_chunk::<DIGITS>() {
        Some(digits) => f64_from_bits_with_nan(pattern(digits)),
        None => 0.0,
    }
}

// The pattern that hex digits spell.
fn pattern(digits: &[u8; 16]) -> u64 {
    digits.iter().fold(0, |bits, b| {
        (bits << 4) | u64::from(hex_digit(*b).unwrap_or(0))
    })
}

// Have the two the same pattern, or are they both NaN?
fn is_same_number(x: f64, y: f64) -> bool {
    f64_to_bits_with_nan(x) == f64_to_bits_with_nan(y)
}
