// Cutting a step into its parameters. The Rust is `split_into_parameters` of src/token/mod.rs.
#![tactic(auto)]

mod elements;
mod listing;
mod table;

ghost use Rattle.std.specs.Prelude.{◌≡◌, true, ◌+◌, ◌*◌, ◌≤◌, length};
ghost use Rattle.rules.specs.Text.Bytes.{words, in_domain};
ghost use Rattle.rules.specs.Text.Refusal.{Writes, Lends};
ghost use Rattle.rules.specs.Text.Parameters.{parameters};
ghost use Rattle.parameters.specs.Replies.{step_reply, name_reply, text_reply};
ghost use Rattle.parameters.specs.Tables.{front};

use normalise::normal_of;
use rules::Refusal;
pub use table::{Full, Parameters, Part, Source, value_at};
use text::{Kind, is_blank, is_lead, put, run_end, tested};

// A text of so few bytes, ten times as long, has room in 4,096 with nine bytes behind it.
const FEW: usize = 408;

// Writes the parameters of a step: 6, 9, then 7.
fn step_out(source: Source, out: &mut [u8]) -> Result<usize, Refusal>
    requires { length source.s.now ≤ 40969 }
    ensures { Lends (step_reply (words (front source.entry))) out.old result out.new }
{
    let step = &source.s[..source.n];
    if is_blank(step) {
        return Ok(0);
    }
    if is_lead(step) {
        return Err(Refusal {
            number: 6,
            place: 0,
            offset: 0,
        });
    }
    let mut table = Parameters::new(source);
    match table.enter_step() {
        Ok(()) => table.small_out(out),
        Err(Full) => Err(Refusal {
            number: 9,
            place: 0,
            offset: 0,
        }),
    }
}

// Writes the whole text as the value of `_name`.
fn name_out(source: Source, out: &mut [u8]) -> Result<usize, Refusal>
    requires { length source.s.now ≤ 40969 }
    ensures { Lends (name_reply (front source.entry)) out.old result out.new }
{
    let n = source.n;
    let p = Part {
        key: n,
        key_end: n + 5,
        value: 0,
        value_end: n,
    };
    let mut table = Parameters::new(source);
    let _ = table.enter(p);
    table.small_out(out)
}

// Writes the parameters of a normalised text.
fn text_out(source: Source, out: &mut [u8]) -> Result<usize, Refusal>
    requires { length source.s.now ≤ 40969 }
    ensures { Lends (text_reply (front source.entry)) out.old result out.new }
{
    let n = source.n;
    let e = run_end(Kind::Piece, &source.s[..n], 0);
    if e < n {
        return name_out(source, out);
    }
    step_out(source, out)
}

// The answer for a text that is neither too long nor outside the domain; a and b are room to work in. Behind the normal
// form stand the words that a parameter may have and the text has not.
fn answer(text: &[u8], out: &mut [u8], a: &mut [u8], b: &mut [u8]) -> Result<usize, Refusal>
    requires text_len_bound { length text.now ≤ 4096 }
    requires text_value { in_domain text.now ≡ true }
    requires text_in_bounds { 10 * length text.now + 9 ≤ length a.old }
    requires text_in_bounds_2 { 10 * length text.now ≤ length b.old }
    ensures { Writes parameters text.now out.old result out.new }
{
    let n = normal_of(text, a, b);
    let m = put(b"_nametrue", a, n);
    text_out(Source { s: &a[..m], n: n }, out)
}

// The answer over buffers of N bytes of its own: for a short text to clear large ones would cost more than the rest.
fn within<const N: usize>(text: &[u8], out: &mut [u8]) -> Result<usize, Refusal>
    requires text_len_bound { length text.now ≤ 4096 }
    requires text_value { in_domain text.now ≡ true }
    requires text_in_bounds { 10 * length text.now + 9 ≤ N }
    requires few { N ≤ 40969 }
    ensures { Writes parameters text.now out.old result out.new }
{
    let mut a = [0u8; N];
    let mut b = [0u8; N];
    answer(text, out, &mut a, &mut b)
}

// Cuts text into its parameters, each as `key=value` with a newline after it, into out from its first byte. It refuses 1,
// 2, 6, 9, then 7, and then out is as it was.
pub fn parameters(text: &[u8], out: &mut [u8]) -> Result<usize, Refusal>
    ensures { Writes parameters text.now out.old result out.new }
{
    tested(text)?;
    if text.len() <= FEW {
        return within::<4096>(text, out);
    }
    within::<40969>(text, out)
}
