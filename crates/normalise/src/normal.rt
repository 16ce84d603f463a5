// The passes that make a text its normal form. The Rust is `normalize` of src/token/mod.rs, whose list of replacements stands here as one
// table of bytes.
ghost use Rattle.std.specs.Prelude.{◌≡◌, ◌<◌, ◌≤◌, length, take};
ghost use Rattle.rules.specs.Text.Ascii.{is};
ghost use Rattle.rules.specs.Text.Bytes.{white, replace, trimmed};
ghost use Rattle.rules.specs.Text.Normal.{replacements, run, squeezed, continued, normal};
ghost use Rattle.laws_text.specs.Sizes.{weight};
ghost use Rattle.text.specs.Wrote.{Wrote, Holds};
ghost use Rattle.normalise.specs.Table.{table};
ghost use Rattle.normalise.specs.Calm.{sort, follows, calm_from};

use text::{Edge, find, put, replace_from, replace_into, squeeze_into, trim};

// Replaces each old by new in the text that a holds in its first n bytes; b is room to work in. Where there is no old,
// nothing is copied.
fn rewrite(a: &mut [u8], n: usize, old: &[u8], new: &[u8], b: &mut [u8]) -> usize
    requires nonzero { 0 < length old.now }
    requires n_in_bounds { n ≤ length a.old }
    requires a_in_bounds { length (replace old.now new.now (take n a.old)) ≤ length a.old }
    requires a_in_bounds_2 { length (replace old.now new.now (take n a.old)) ≤ length b.old }
    ensures { Holds (replace old.now new.now (take n a.old)) result a.new }
{
    let first = find(&a[..n], 0, old);
    if n <= first {
        return n;
    }
    let m = replace_from(&a[..n], first, old, new, b);
    put(&b[..m], a, 0)
}

// Runs each replacement of the table, "in its order, each over the whole text", on the text that a holds in its first n
// bytes; b is room to work in. The text may grow, but its weight does not.
fn run_all(rules: &[u8], a: &mut [u8], n: usize, b: &mut [u8]) -> usize
    requires rules_value { rules.now ≡ table replacements }
    requires n_in_bounds { n ≤ length a.old }
    requires a_in_bounds { weight (take n a.old) ≤ length a.old }
    requires a_in_bounds_2 { weight (take n a.old) ≤ length b.old }
    ensures { Holds (run replacements (take n a.old)) result a.new }
{
    let mut at = 0;
    let mut m = n;
    while at < rules.len() {
        let p = rules[at] as usize;
        let q = rules[at + 1] as usize;
        let from = at + 2;
        let mid = from + p;
        let end = mid + q;
        m = rewrite(a, m, &rules[from..mid], &rules[mid..end], b);
        at = end;
    }
    m
}

// What comes before the replacements: "trimming white space, then colons at both ends, then removing a colon that
// follows a newline", and one space between words. a is room to work in.
fn cleaned(text: &[u8], a: &mut [u8], b: &mut [u8]) -> usize
    requires text_in_bounds { weight (trimmed white text.now) ≤ length a.old }
    requires text_in_bounds_2 { weight (trimmed white text.now) ≤ length b.old }
    ensures { Wrote (squeezed (continued (trimmed (is ":") (trimmed white text.now)))) b.old result b.new }
{
    let t = trim(Edge::White, text);
    let u = trim(Edge::Byte(58), t);
    let n = replace_into(u, b"\n:", b"\n", a);
    squeeze_into(&a[..n], b)
}

// What a byte is to `is_calm`.
#[derive(Clone, Copy, Drop)]
enum Sort {
    Plain,
    // one of `= : , | $`, next to which no space may stand
    Mark,
    Space,
    // a byte that is not passed over
    Other,
}

#[tactic(auto, unfolding(crate::specs::Calm::sort))]
fn sort_of(b: u8) -> Sort
    ensures { result ≡ sort b }
{
    match b {
        b' ' => Sort::Space,
        0..=31 | 128..=255 | b'<' | b'>' => Sort::Other,
        b'=' | b':' | b',' | b'|' | b'$' => Sort::Mark,
        _ => Sort::Plain,
    }
}

// May a byte of one sort follow one of the sort `last`?
#[tactic(auto, unfolding(crate::specs::Calm::follows, crate::specs::Calm::is_plain, crate::specs::Calm::is_space))]
fn may_follow(last: Sort, next: Sort) -> bool
    ensures { result ≡ follows last next }
{
    match next {
        Sort::Plain => true,
        Sort::Mark => !matches!(last, Sort::Space),
        Sort::Space => matches!(last, Sort::Plain),
        Sort::Other => false,
    }
}

// Is it seen at once that the text is its own normal form? Most steps of a normalised text are.
fn is_calm(text: &[u8]) -> bool
    ensures { result ≡ calm_from Sort.Space text.now }
{
    let mut last = Sort::Space;
    for b in text {
        let next = sort_of(*b);
        if !may_follow(last, next) {
            return false;
        }
        last = next;
    }
    matches!(last, Sort::Plain)
}

// The normal form of a text, worked out, into the first bytes of a; b is room to work in. `>` and `<` grow tenfold, and no
// text on the way weighs more than the one that came in.
fn worked_out(text: &[u8], a: &mut [u8], b: &mut [u8]) -> usize
    requires text_in_bounds { weight (trimmed white text.now) ≤ length a.old }
    requires text_in_bounds_2 { weight (trimmed white text.now) ≤ length b.old }
    ensures { Holds (normal text.now) result a.new }
{
    let rules =
        b"\x02\x01= =\x02\x01: :\x02\x01, ,\x02\x01| |\x02\x01> >\x02\x01< <\x02\x01 ==\x02\x01 ::\x02\x01 ,,\x02\x01 ||\x02\x01 >>\x02\x01 <<\x01\x0a>|omit_inv \x01\x0a<|omit_fwd \x04\x03\xe2\x82\x80=_0=\x04\x03\xe2\x82\x81=_1=\x04\x03\xe2\x82\x82=_2=\x04\x03\xe2\x82\x83=_3=\x04\x03\xe2\x82\x84=_4=\x04\x03\xe2\x82\x85=_5=\x04\x03\xe2\x82\x86=_6=\x04\x03\xe2\x82\x87=_7=\x04\x03\xe2\x82\x88=_8=\x04\x03\xe2\x82\x89=_9=\x02\x01$ $";
    let n = cleaned(text, a, b);
    let m = run_all(rules, b, n, a);
    squeeze_into(&b[..m], a)
}

// The normal form of a text, into the first bytes of a; b is room to work in.
pub fn normal_of(text: &[u8], a: &mut [u8], b: &mut [u8]) -> usize
    requires text_in_bounds { weight (trimmed white text.now) ≤ length a.old }
    requires text_in_bounds_2 { weight (trimmed white text.now) ≤ length b.old }
    ensures { Holds (normal text.now) result a.new }
{
    if is_calm(text) {
        return put(text, a, 0);
    }
    worked_out(text, a, b)
}
