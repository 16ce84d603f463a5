// Bytes in hex digits.
ghost use Rattle.std.specs.Prelude.{◌≡◌, ◌≤◌, ◌/◌, ◌%◌, ◌∷◌, [], slice_index};

// The digits by their values: the contracts speak of them.
const DIGITS: &[u8; 16] = b"0123456789abcdef";

// The two lowercase hex digits of a byte.
pub fn hex_digits(b: u8) -> [u8; 2]
    ensures { result ≡ slice_index DIGITS.now (b / 16) ∷ slice_index DIGITS.now (b % 16) ∷ [] }
{
    [digit(b / 16), digit(b % 16)]
}

// The digit of a value below 16: `a` stands 39 behind `:`, which follows `9`. It is reckoned, not looked up, so that the compiler can
// reckon many at once.
fn digit(n: u8) -> u8
    requires { n ≤ 15 }
    ensures { result ≡ slice_index DIGITS.now n }
{
    b'0' + n + if n < 10 { 0 } else { 39 }
}
