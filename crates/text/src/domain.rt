// Refusals 1 and 2, which the Rust has not: is a text short enough, and is every byte of it ASCII or part of a whole subscript digit?
ghost use Rattle.std.specs.Prelude.{◌≡◌, ◌≤◌, false, length, MatchOption};
ghost use Rattle.rules.specs.Text.Bytes.{in_domain};
ghost use Rattle.laws_text.specs.Entry.{Tested};
ghost use Rattle.laws_text.specs.Passes.{digit};
ghost use Rattle.text.specs.Domain.{BehindDigit};

use rules::{OUTSIDE, Refusal, TOO_LONG};

// "a text .. is over 4,096 bytes": 1
const MOST: usize = 4096;

// What is left of s behind the ASCII in front of it, of which sixteen bytes are passed at a time.
fn skip_ascii(s: &[u8]) -> &[u8]
    ensures shorter { length result.now ≤ length s.now }
    ensures same { in_domain result.now ≡ in_domain s.now }
{
    let mut rest = s;
    while let Some((block, others)) = rest.split_at_checked(16) {
        if !block.is_ascii() {
            return rest;
        }
        rest = others;
    }
    rest
}

// What stands in s behind the whole subscript digit that it begins with, if it does.
fn behind_digit(s: &[u8]) -> Option<&[u8]>
    ensures { MatchOption result (digit s.now ≡ false) (λ others. BehindDigit s.now others.now) }
{
    let [x, y, z, others @ ..] = s else {
        return None;
    };
    if *x == 226 && *y == 130 && (128..=137).contains(z) {
        Some(others)
    } else {
        None
    }
}

// Is every byte of s ASCII or part of a whole subscript digit? Where not, the text is refused 2.
fn in_domain(s: &[u8]) -> bool
    ensures { result ≡ in_domain s.now }
{
    let mut rest = skip_ascii(s);
    while let [b, others @ ..] = rest {
        if *b < 128 {
            rest = others;
        } else {
            let Some(others) = behind_digit(rest) else {
                return false;
            };
            rest = skip_ascii(others);
        }
    }
    true
}

// "Text calls test 1, 2, then their own": the first of the two that the text is refused with, if it is.
#[tactic(auto, unfolding(laws_text::specs::Entry::both_tests))]
pub fn tested(text: &[u8]) -> Result<(), Refusal>
    ensures { Tested text.now result }
{
    if MOST < text.len() {
        return Err(TOO_LONG);
    }
    if !in_domain(text) {
        return Err(OUTSIDE);
    }
    Ok(())
}
