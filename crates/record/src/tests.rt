// Records and tables that a preparation makes: the test of refusal 18.
ghost use Rattle.std.specs.Prelude.{◌≡◌, ◌≤◌, length, take, drop};
ghost use Rattle.rules.specs.Pipeline.Record.{span_end, made, good_span, good_in, refusal18, listed};
ghost use Rattle.record.specs.Records.{is_marked, is_written};

use crate::arguments::is_args;
use numbers::{Kind, are_of};
use rules::{GREATEST, Step, Table};

// Are the marks of a record and the number of its reading 0 or 1?
#[tactic(auto, unfolding(crate::specs::Records::is_marked))]
fn is_marked(s: Step) -> bool
    ensures { result ≡ is_marked s }
{
    s.inv <= 1 && s.omit_fwd <= 1 && s.omit_inv <= 1 && s.reading <= 1
}

// 18: is it a record that a preparation makes?
#[tactic(auto, using(crate::proofs::Refused18::made_tests), unfolding(rules::specs::Pipeline::Record::args, rules::specs::Pipeline::Record::unused))]
pub fn made(s: Step) -> bool
    ensures { result ≡ made s }
{
    s.operator <= GREATEST
        && s.n <= 8
        && is_marked(s)
        && is_written(s.operator, &s.args, usize::from(s.n))
}

// Are the first n the arguments of that operator, and is nothing in the slots that are not used? The test for nine digits looks at
// all slots, of which those that are not used hold 0 here: so this is a call for the compiler, and a run that calls it stays small
// enough to have its table in one place.
#[tactic(auto, using(crate::proofs::SlotsUsed::written_tests))]
fn is_written(operator: u8, l: &[i32], n: usize) -> bool
    requires { n ≤ length l.now }
    ensures { result ≡ is_written operator (take n l.now) (drop n l.now) }
{
    are_of(Kind::Zero, &l[n..]) && are_of(Kind::NineDigits, l) && is_args(operator, &l[..n])
}

// The byte that no span passes.
const MOST: usize = 40960;

// The byte after the last of a record's span.
#[tactic(auto, unfolding(rules::specs::Pipeline::Record::span_end))]
pub fn end_of(s: Step) -> usize
    ensures { result ≡ span_end s.span }
{
    s.span.from as usize + s.span.length as usize
}

// 18 of a span behind one that ends there: is it not empty, ends it by byte 40,960, and begins it no earlier?
#[tactic(auto, unfolding(rules::specs::Pipeline::Record::good_span))]
fn is_behind(s: Step, end: usize) -> bool
    ensures { result ≡ good_span end s.span }
{
    0 < s.span.length && end_of(s) <= MOST && end <= s.span.from as usize
}

// 18 of a table of that reading, behind a record whose span ends there: is it a record that a preparation in that reading makes, with
// a span for that place?
#[tactic(auto, unfolding(rules::specs::Pipeline::Record::good_in))]
pub fn good_in(s: Step, reading: u8, end: usize) -> bool
    ensures { result ≡ good_in reading end s }
{
    made(s) && s.reading == reading && is_behind(s, end)
}

// 18: the place of the first record that no preparation makes, whose reading is not the first's, or whose span is empty, too far or not behind the
// last one's; 0 for over 64 records.
pub fn refusal18(table: Table) -> Option<usize>
    ensures { result ≡ refusal18 (listed table) }
{
    let n = table.n;
    if 64 < n {
        return Some(0);
    }
    let reading = table.steps[0].reading;
    let mut end = 0;
    for i in 0..n {
        let s = table.steps[i];
        if !good_in(s, reading, end) {
            return Some(i + 1);
        }
        end = end_of(s);
    }
    None
}
