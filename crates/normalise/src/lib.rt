// Reading text: the call that answers a text's normal form, and the passes for the other calls. The Rust is `normalize` of
// src/token/mod.rs.
#![tactic(auto)]

mod comments;
mod defined;
mod normal;

ghost use Rattle.std.specs.Prelude.{◌≡◌, true, ◌*◌, ◌≤◌, length};
ghost use Rattle.rules.specs.Text.Bytes.{in_domain};
ghost use Rattle.rules.specs.Text.Normal.{normalise};
ghost use Rattle.rules.specs.Text.Refusal.{Writes};

pub use comments::{clean_into, lines_into, newlines_into};
pub use defined::definition;
pub use normal::normal_of;
use rules::Refusal;
use text::{hand_out, tested};

// A text of so few bytes, ten times as long, has room in 4,096.
const FEW: usize = 409;

// The answer for a text that is neither too long nor outside the domain: its normal form in out, or 7. It is worked out in buffers of N
// bytes: to clear large ones for a short text would cost more than the rest.
fn answer<const N: usize>(text: &[u8], out: &mut [u8]) -> Result<usize, Refusal>
    requires text_len_bound { length text.now ≤ 4096 }
    requires text_value { in_domain text.now ≡ true }
    requires room { 10 * length text.now ≤ N }
    requires most { N ≤ 40960 }
    ensures { Writes normalise text.now out.old result out.new }
{
    let mut a = [0u8; N];
    let mut b = [0u8; N];
    let n = normal_of(text, &mut a, &mut b);
    hand_out(&a[..n], out)
}

// Normalises text into out from its first byte. It refuses 1, 2, then 7, and then out is as it was.
pub fn normalise(text: &[u8], out: &mut [u8]) -> Result<usize, Refusal>
    ensures { Writes normalise text.now out.old result out.new }
{
    tested(text)?;
    if text.len() <= FEW {
        return answer::<4096>(text, out);
    }
    answer::<40960>(text, out)
}
