// Numbers in decimal form. What the Rust does by `fract`, `copysign` and `signum` are whole-number tests on the parsed decimal here.
ghost use Rattle.std.specs.Prelude.{◌≡◌, not, ◌-◌, ◌*◌, ◌^◌, ◌≤◌, ◌<◌, length, eqb};
ghost use Rattle.rules.specs.Text.Decimal.{plain, decimal};
ghost use Rattle.text.specs.Runs.{Run};
ghost use Rattle.prepare.specs.SeriesRead.{spelled_to};

use rules::Decimal;

// The place of the first byte b of s from `at` on, or the length.
pub fn byte_end(b: u8, s: &[u8], at: usize) -> usize
    requires { at ≤ length s.now }
    ensures { Run (λ x. not (eqb x b)) s.now at result }
{
    let rest = &s[at..];
    let run = rest.iter().position(|x| *x == b);
    at + run.unwrap_or(rest.len())
}

// The number that t spells: "1 to 9 digits", or 1 to as many as `most` says.
fn digits(t: &[u8], most: usize) -> Option<u32>
    requires { most ≤ 9 }
    ensures { result ≡ spelled_to most t.now }
{
    if t.is_empty() || most < t.len() {
        return None;
    }
    let mut n = 0;
    for b in t {
        if !b.is_ascii_digit() {
            return None;
        }
        n = n * 10 + u32::from(*b - b'0');
    }
    Some(n)
}

// k digits after the point that spell v, in millionths.
fn millionths(v: u32, k: u32) -> u32
    requires le_k { (1 ≤ k) × (k ≤ 6) }
    requires v_bound { v < 10 ^ k }
    ensures { result ≡ v * 10 ^ (6 - k) }
{
    v * 10_u32.pow(6 - k)
}

// A number without its sign: "1 to 9 digits, optionally a point and 1 to 6 digits".
fn plain(minus: bool, t: &[u8]) -> Option<Decimal>
    ensures { result ≡ plain minus t.now }
{
    let p = byte_end(b'.', t, 0);
    let Some(whole) = digits(&t[..p], 9) else {
        return None;
    };
    if t.len() <= p {
        return Some(Decimal {
            minus,
            whole,
            millionths: 0,
        });
    }
    let from = p + 1;
    let Some(fraction) = digits(&t[from..], 6) else {
        return None;
    };
    Some(Decimal {
        minus,
        whole,
        millionths: millionths(fraction, (t.len() - from) as u32),
    })
}

// "Decimal form: optional minus, 1 to 9 digits, optionally a point and 1 to 6 digits."
pub fn decimal(piece: &[u8]) -> Option<Decimal>
    ensures { result ≡ decimal piece.now }
{
    match piece {
        [] => None,
        [b'-', rest @ ..] => plain(true, rest),
        _ => plain(false, piece),
    }
}
