// The one place where a step record is made, where it is named for its reading, and where it is told where its text stands.
ghost use Rattle.std.specs.Prelude.{◌≡◌, ◌-◌, ◌≤◌, pos, take, drop, replicate};
ghost use Rattle.rules.specs.Pipeline.Record.{reading_number, step_with, in_reading, spanned, blank};
ghost use Rattle.record.specs.Records.{mark_of};

use rules::{CRATE, PROJ, PUSH, Reading, Span, Step};

// No bytes of a text.
pub const NO_SPAN: Span = Span { from: 0, length: 0 };

// The operator by its number, the first n of eight slots as its arguments, and the marks; in the crate's reading, and with no span.
pub fn step_of(
    operator: u8,
    args: [i32; 8],
    n: usize,
    inv: bool,
    omit_fwd: bool,
    omit_inv: bool,
) -> Step
    requires n_bound { n ≤ 8 }
    requires args_value { drop n args ≡ replicate (8 - n) (pos 0) }
    ensures { result ≡ step_with operator (take n args) (mark_of inv) (mark_of omit_fwd) (mark_of omit_inv) }
{
    Step {
        operator,
        n: n as u8,
        inv: u8::from(inv),
        omit_fwd: u8::from(omit_fwd),
        omit_inv: u8::from(omit_inv),
        reading: CRATE,
        args,
        span: NO_SPAN,
    }
}

// The number of a reading in a record.
// Stays: `From` for the two types could stand in crate rules alone, which holds no function.
#[tactic(auto, unfolding(rules::specs::Pipeline::Record::reading_number))]
fn number_of(reading: Reading) -> u8
    ensures { result ≡ reading_number reading }
{
    match reading {
        Reading::Crate => CRATE,
        Reading::Proj => PROJ,
    }
}

// The same record in a reading.
#[tactic(auto, unfolding(rules::specs::Pipeline::Record::in_reading))]
pub fn in_reading(s: Step, reading: Reading) -> Step
    ensures { result ≡ in_reading reading s }
{
    Step {
        reading: number_of(reading),
        ..s
    }
}

// The same record with a span, from its first byte up to the byte after its last.
#[tactic(auto, unfolding(rules::specs::Pipeline::Record::spanned))]
pub fn spanned(s: Step, from: usize, to: usize) -> Step
    requires from_le_to { from ≤ to }
    requires to_bound { to ≤ 40960 }
    ensures { result ≡ spanned (record { from = from; length = to - from }) s }
{
    Step {
        span: Span {
            from: from as u32,
            length: (to - from) as u32,
        },
        ..s
    }
}

// A record with nothing in it.
#[tactic(auto, unfolding(rules::specs::Pipeline::Record::blank))]
pub fn blank() -> Step
    ensures { result ≡ blank }
{
    Step {
        operator: PUSH,
        n: 0,
        inv: 0,
        omit_fwd: 0,
        omit_inv: 0,
        reading: CRATE,
        args: [0; 8],
        span: NO_SPAN,
    }
}
