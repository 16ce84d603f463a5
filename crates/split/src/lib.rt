// Splitting a definition into its steps. The Rust is `split_into_steps` of src/token/mod.rs.
#![tactic(auto)]

mod step;

ghost use Rattle.std.specs.Prelude.{◌≡◌, true, ◌*◌, ◌<◌, ◌≤◌, length};
ghost use Rattle.rules.specs.Text.Bytes.{in_domain};
ghost use Rattle.rules.specs.Text.Split.{split};
ghost use Rattle.rules.specs.Text.Refusal.{Writes, Lends};
ghost use Rattle.split.specs.Lines.{split_normal, Lined};

use normalise::clean_into;
use reader::next_from;
use rules::{Found, Refusal, TOO_MANY_STEPS};
pub use step::line_at;
use text::{hand_out, tested};

// A text of so few bytes, ten times as long, has room in 4,096 and one to spare.
const FEW: usize = 409;

// Writes the lines of all steps of a normalised text into dst, one behind the other, or refuses: 6 at the first step that is modifiers
// alone, and then 8.
fn lines_of(normal: &[u8], dst: &mut [u8]) -> Result<usize, Refusal>
    requires { length normal.now < length dst.old }
    ensures { Lined (split_normal normal.now) result dst.new }
{
    let mut place = 0;
    let mut n = 0;
    let mut o = 0;
    while let Some(Found { from, to, then }) = next_from(normal, place) {
        n += 1;
        let Some(end) = line_at(&normal[from..to], dst, o) else {
            return Err(Refusal {
                number: 6,
                place: n,
                offset: 0,
            });
        };
        o = end;
        place = then.at;
    }
    if 64 < n {
        return Err(TOO_MANY_STEPS);
    }
    Ok(o)
}

// Splits a normalised text into out: 6, 8, then 7. The lines are written into b first, and out only gets them whole.
fn steps_out(normal: &[u8], out: &mut [u8], b: &mut [u8]) -> Result<usize, Refusal>
    requires { length normal.now < length b.old }
    ensures { Lends (split_normal normal.now) out.old result out.new }
{
    let m = lines_of(normal, b)?;
    hand_out(&b[..m], out)
}

// The answer for a text that is neither too long nor outside the domain. It is worked out in buffers of N bytes: to clear large ones for a
// short text would cost more than the rest.
fn answer<const N: usize>(text: &[u8], out: &mut [u8]) -> Result<usize, Refusal>
    requires text_len_bound { length text.now ≤ 4096 }
    requires text_value { in_domain text.now ≡ true }
    requires room { 10 * length text.now < N }
    requires most { N ≤ 40961 }
    ensures { Writes split text.now out.old result out.new }
{
    let mut a = [0u8; N];
    let mut b = [0u8; N];
    let mut c = [0u8; N];
    let n = clean_into(text, &mut a, &mut b, &mut c);
    steps_out(&a[..n], out, &mut b)
}

// Splits text into its steps, each with a newline after it, into out from its first byte. It refuses 1, 2, 6, 8, then 7,
// and then out is as it was.
pub fn split(text: &[u8], out: &mut [u8]) -> Result<usize, Refusal>
    ensures { Writes split text.now out.old result out.new }
{
    tested(text)?;
    if text.len() <= FEW {
        return answer::<4096>(text, out);
    }
    answer::<40961>(text, out)
}
