// White space, and the words between it: Rust's `split_whitespace`, and `join(" ")`.
ghost use Rattle.std.specs.Prelude.{◌≡◌, ◌≤◌, length};
ghost use Rattle.rules.specs.Text.Bytes.{white, words, joined};
ghost use Rattle.text.specs.Wrote.{Wrote};

// "White space is bytes 9 to 13 and 32."
#[tactic(auto, unfolding(rules::specs::Text::Bytes::white))]
pub fn is_white(b: u8) -> bool
    ensures { result ≡ white b }
{
    matches!(b, b' ' | 9..=13)
}

// Writes the words of src with one space between.
pub fn squeeze_into(src: &[u8], dst: &mut [u8]) -> usize
    requires { length (joined (words src.now)) ≤ length dst.old }
    ensures { Wrote (joined (words src.now)) dst.old result dst.new }
{
    let mut o = 0;
    // is a space to be written before the next word?
    let mut owed = false;
    for b in src {
        if is_white(*b) {
            owed = 0 < o;
            continue;
        }
        if owed {
            dst[o] = b' ';
            o += 1;
            owed = false;
        }
        dst[o] = *b;
        o += 1;
    }
    o
}
