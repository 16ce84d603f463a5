// The plain types that every crate shares: step records, coordinates, directions, and what the calls answer. What they
// mean is written down in specs/. No algorithm stands here.
#![tactic(auto)]

// The operators by their numbers, `stack` by its seven actions.
pub const PUSH: u8 = 0;

pub const POP: u8 = 1;

pub const STACK_PUSH: u8 = 2;

pub const STACK_POP: u8 = 3;

pub const STACK_FLIP: u8 = 4;

pub const STACK_ROLL: u8 = 5;

pub const STACK_UNROLL: u8 = 6;

pub const STACK_SWAP: u8 = 7;

pub const STACK_DROP: u8 = 8;

pub const AXISSWAP: u8 = 9;

pub const ADAPT: u8 = 10;

// `adapt` of the documented mode.
pub const DOCUMENTED: u8 = 11;

// The greatest of their numbers.
pub const GREATEST: u8 = DOCUMENTED;

// The five names of operators.
#[derive(Clone, Copy, Drop)]
pub enum Name {
    Push,
    Pop,
    Stack,
    Axisswap,
    Adapt,
}

// What a key takes: a flag, a series of numbers, or a word.
#[derive(Clone, Copy, Drop)]
pub enum Kind {
    Flag,
    Series,
    Word,
}

// The two readings of a definition: the crate's, in which `inv` turns `axisswap` and `adapt` only, and PROJ's, in which it turns
// every operator. And their numbers in a record.
#[derive(Clone, Copy, Drop)]
pub enum Reading {
    Crate,
    Proj,
}

pub const CRATE: u8 = 0;

pub const PROJ: u8 = 1;

// The two modes of `adapt`: the crate's, which ties sign and angle to a position, and the documented, which ties them to an axis. Only an
// `adapt` step knows its mode: by its operator's number.
#[derive(Clone, Copy, Drop)]
pub enum Mode {
    Crate,
    Documented,
}

// Where a step's text stands in the normalised definition: its first byte, and how many there are.
#[repr(C)]
#[derive(Clone, Copy, Drop)]
pub struct Span {
    pub from: u32,
    pub length: u32,
}

// A step record: the operator by its number, how many arguments it has, the marks, each 0 or 1, the reading by its number, up to
// eight arguments in place, and where its text stands. A slot that is not used holds 0. Whatever a C caller lends is some record; one
// that no preparation makes is refused 18, and so is one whose reading is not that of the table's first, or whose span is empty,
// ends past byte 40,960 or begins before the last one ends (specs/Pipeline/Record.antt).
#[repr(C)]
#[derive(Clone, Copy, Drop)]
pub struct Step {
    pub operator: u8,
    pub n: u8,
    pub inv: u8,
    pub omit_fwd: u8,
    pub omit_inv: u8,
    pub reading: u8,
    pub args: [i32; 8],
    pub span: Span,
}

// A step table by value: n records, the first of 64. A table that stands for a longer row says so by its n.
#[derive(Clone, Copy, Drop)]
pub struct Table {
    pub steps: [Step; 64],
    pub n: usize,
}

// A coordinate: one record of four numbers.
#[repr(C)]
#[derive(Clone, Copy, Drop)]
pub struct Coord {
    pub a: f64,
    pub b: f64,
    pub c: f64,
    pub d: f64,
}

#[derive(Clone, Copy, Drop)]
pub enum Direction {
    Forward,
    Inverse,
}

// A place of a tuple, 1 to 4, and whether its sign is turned.
#[repr(C)]
#[derive(Clone, Copy, Drop)]
pub struct Place {
    pub axis: u8,
    pub minus: bool,
}

// A number in decimal form: whole and millionths, both without the sign.
#[derive(Clone, Copy, Drop)]
pub struct Decimal {
    pub minus: bool,
    pub whole: u32,
    pub millionths: u32,
}

// A place in a normalised text, from which the walk over its steps goes on.
#[derive(Clone, Copy, Drop)]
pub struct Cursor {
    pub at: usize,
}

// A step that the walk finds: from its first byte up to the byte after its last, and where to go on.
#[derive(Clone, Copy, Drop)]
pub struct Found {
    pub from: usize,
    pub to: usize,
    pub then: Cursor,
}

// A refusal: its number in the documents' tables and its place; and the offset that 12 has in preparing, the byte of the step's
// text at which the fault is. Of any other refusal the offset is 0.
#[derive(Clone, Copy, Drop)]
pub struct Refusal {
    pub number: u8,
    pub place: usize,
    pub offset: usize,
}

// Those that have no place.
pub const TOO_LONG: Refusal = Refusal {
    number: 1,
    place: 0,
    offset: 0,
};

pub const OUTSIDE: Refusal = Refusal {
    number: 2,
    place: 0,
    offset: 0,
};

pub const NO_ROOM: Refusal = Refusal {
    number: 7,
    place: 0,
    offset: 0,
};

pub const TOO_MANY_STEPS: Refusal = Refusal {
    number: 8,
    place: 0,
    offset: 0,
};

// What the check says of a step table. What a pass foretells stands beside it, in `Foretold`.
#[derive(Clone, Copy, Drop)]
pub enum Verdict {
    Passes,
    TooFew(usize),
    TooMany(usize),
    Refused { number: u8, place: usize },
}

// What the check answers. Of a step that it names: its span. Of a pass: how many steps run and the depth after each, the deepest,
// the columns left, and the four places, if they are told (no `adapt` step runs). Everything else is zero.
#[derive(Clone, Copy, Drop)]
pub struct Foretold {
    pub verdict: Verdict,
    pub span: Span,
    pub run: usize,
    pub depths: [usize; 64],
    pub deepest: usize,
    pub left: usize,
    pub told: bool,
    pub places: [Place; 4],
}

// What a run that is not refused answers: the success count and how many columns are left.
#[derive(Clone, Copy, Drop)]
pub struct Finished {
    pub count: usize,
    pub left: usize,
}

// ---- the same answers as plain records, which C and Rust can hold (specs/Face/Plain.antt says what each holds)

// What a text call answers: number 0 and the length of the answer, which stands at the front of the lent buffer; or the
// refusal's number and place, and the buffer is as it was. Of preparing: number 0 and how many records there are; and of
// refusal 12 the offset, which is 0 in every other answer.
#[repr(C)]
#[derive(Clone, Copy, Drop)]
pub struct Answer {
    pub number: u8,
    pub place: usize,
    pub length: usize,
    pub offset: usize,
}

// What a reader finds: 1 for a step, from its first byte up to the byte after its last, and the place from which to go on; 0
// for the end, and all else is zero.
#[repr(C)]
#[derive(Clone, Copy, Drop)]
pub struct Part {
    pub found: u8,
    pub from: usize,
    pub to: usize,
    pub then: usize,
}

// What the check says: number 0 for a pass, 1 for a step that finds too few columns, 2 for one after which there are too
// many, each with the step's place; or 18 and the place of the refusal.
#[repr(C)]
#[derive(Clone, Copy, Drop)]
pub struct Said {
    pub number: u8,
    pub place: usize,
}

// What the check answers. Of a step that it names: its span. Of a pass: how many steps run and the depth after each, the deepest,
// the columns left, and the four places, if they are told. Everything else is zero.
#[repr(C)]
#[derive(Clone, Copy, Drop)]
pub struct Checked {
    pub said: Said,
    pub span: Span,
    pub run: usize,
    pub depths: [usize; 64],
    pub deepest: usize,
    pub left: usize,
    pub told: bool,
    pub places: [Place; 4],
}

// What a run answers: number 0, the success count and the columns left; or the refusal's number and place.
#[repr(C)]
#[derive(Clone, Copy, Drop)]
pub struct Done {
    pub number: u8,
    pub place: usize,
    pub count: usize,
    pub left: usize,
}
