// The call that answers the normalised definition: the text without its comments, in normal form. It is what splitting cuts into steps, and
// where a record's span is counted.
ghost use Rattle.std.specs.Prelude.{◌≡◌, true, ◌*◌, ◌<◌, ◌≤◌, length};
ghost use Rattle.rules.specs.Text.Bytes.{in_domain};
ghost use Rattle.rules.specs.Text.Reader.{define};
ghost use Rattle.rules.specs.Text.Refusal.{Writes};

use crate::comments::clean_into;
use rules::Refusal;
use text::{hand_out, tested};

// A text of so few bytes, ten times as long, has room in 4,096 and one to spare.
const FEW: usize = 409;

// The answer for a text that is neither too long nor outside the domain: the normalised definition in out, or 7. It is worked out in
// buffers of N bytes: to clear large ones for a short text would cost more than the rest.
fn answer<const N: usize>(text: &[u8], out: &mut [u8]) -> Result<usize, Refusal>
    requires text_len_bound { length text.now ≤ 4096 }
    requires text_value { in_domain text.now ≡ true }
    requires room { 10 * length text.now < N }
    requires most { N ≤ 40961 }
    ensures { Writes define text.now out.old result out.new }
{
    let mut a = [0u8; N];
    let mut b = [0u8; N];
    let mut c = [0u8; N];
    let n = clean_into(text, &mut a, &mut b, &mut c);
    hand_out(&a[..n], out)
}

// Writes the normalised definition of text into out from its first byte. It refuses 1, 2, then 7, and then out is as it was.
pub fn definition(text: &[u8], out: &mut [u8]) -> Result<usize, Refusal>
    ensures { Writes define text.now out.old result out.new }
{
    tested(text)?;
    if text.len() <= FEW {
        return answer::<4096>(text, out);
    }
    answer::<40961>(text, out)
}
