// A table that is lent, and its records, said as `NAME:MARKS:ARGS@FROM+LENGTH`.
use answers_say::{Output, end_line};
use numbers::size_of;
use rules::{
    ADAPT, AXISSWAP, CRATE, DOCUMENTED, POP, PROJ, PUSH, STACK_DROP, STACK_FLIP, STACK_POP,
    STACK_PUSH, STACK_ROLL, STACK_SWAP, STACK_UNROLL, Span, Step, Table,
};

// The most records that are lent.
pub const MOST_STEPS: usize = 64;

// A lent record beforehand: each byte is AA.
const BYTE: u8 = 0xaa;

const ARG: i32 = -1431655766;

const PLACE: u32 = 0xaaaaaaaa;

const UNTOUCHED_STEP: Step = Step {
    operator: BYTE,
    n: BYTE,
    inv: BYTE,
    omit_fwd: BYTE,
    omit_inv: BYTE,
    reading: BYTE,
    args: [ARG; 8],
    span: Span {
        from: PLACE,
        length: PLACE,
    },
};

// ---- the lent table

// A row of n records to lend. All that a table has room for are untouched.
pub fn untouched(n: usize) -> Table {
    Table {
        steps: [UNTOUCHED_STEP; 64],
        n,
    }
}

fn is_untouched_step(step: &Step) -> bool {
    let marks = matches!(
        step,
        Step {
            operator: BYTE,
            n: BYTE,
            inv: BYTE,
            omit_fwd: BYTE,
            omit_inv: BYTE,
            reading: BYTE,
            span: Span {
                from: PLACE,
                length: PLACE
            },
            ..
        }
    );
    marks && step.args == [ARG; 8]
}

// Is a table that was lent as a row of n still so, and each record behind the first `from` as it was?
pub fn is_untouched(table: &Table, from: usize, n: usize) -> bool {
    table.n == n && table.steps.iter().skip(from).all(is_untouched_step)
}

// The first n records, as a table of their own.
pub fn first(table: &Table, n: usize) -> Table {
    Table { n, ..*table }
}

// ---- a record

// NAME, or `?` where the number is no operator's.
fn name_of(operator: u8) -> &'static str {
    match operator {
        PUSH => "push",
        POP => "pop",
        STACK_PUSH => "stack.push",
        STACK_POP => "stack.pop",
        STACK_FLIP => "stack.flip",
        STACK_ROLL => "stack.roll",
        STACK_UNROLL => "stack.unroll",
        STACK_SWAP => "stack.swap",
        STACK_DROP => "stack.drop",
        AXISSWAP => "axisswap",
        ADAPT => "adapt",
        DOCUMENTED => "documented",
        _ => "?",
    }
}

// The letter of PROJ's reading; none of the crate's; `?` where the number is no reading's.
fn letter_of(reading: u8) -> &'static str {
    match reading {
        CRATE => "",
        PROJ => "p",
        _ => "?",
    }
}

// MARKS: a letter for each that is set, and the reading's; or `-`.
fn say_marks<P: Print>(out: &mut Output<P>, step: &Step) {
    let marks = [(step.inv, 'i'), (step.omit_fwd, 'f'), (step.omit_inv, 'o')];
    if step.reading == CRATE && marks.iter().all(|(mark, _)| *mark == 0) {
        out.say('-');
    }
    for (mark, letter) in &marks {
        if *mark != 0 {
            out.say(*letter);
        }
    }
    out.say(letter_of(step.reading));
}

// The arguments of an `adapt` step, in either mode: `noop`, or the four places and the four factors.
fn say_adapt<P: Print>(out: &mut Output<P>, args: [i32; 8]) {
    let [p1, p2, p3, p4, ..] = args.map(|arg| size_of(arg));
    let m = adapt::mults_of(args);
    if adapt::is_noop(p1, p2, p3, p4, m) {
        out.say("noop");
    } else {
        out.say(format_args!("{p1},{p2},{p3},{p4},"));
        out.list(&[m.a, m.b, m.c, m.d], |out, x| out.pattern(*x));
    }
}

// ARGS: of all but `adapt`, the arguments as they stand in the record.
fn say_args<P: Print>(out: &mut Output<P>, step: &Step) {
    if step.operator == ADAPT || step.operator == DOCUMENTED {
        say_adapt(out, step.args);
        return;
    }
    match step.args.get(..usize::from(step.n)) {
        Some(args) => out.list(args, |out, arg| out.say(*arg)),
        None => out.say('?'),
    }
}

// `FROM+LENGTH`: where a step's text stands.
pub fn say_span<P: Print>(out: &mut Output<P>, span: Span) {
    out.say(format_args!("{}+{}", span.from, span.length));
}

// RECORD: the name, the marks and the arguments, with colons between, and the span behind an `@`.
fn say_record<P: Print>(out: &mut Output<P>, step: &Step) {
    out.say(format_args!("{}:", name_of(step.operator)));
    say_marks(out, step);
    out.say(':');
    say_args(out, step);
    out.say('@');
    say_span(out, step.span);
}

// `ok COUNT` and the records, each behind a space: of a table that is the first records of a row of `room`.
pub fn say_table<P: Print>(out: &mut Output<P>, table: &Table, room: usize, kept: bool) {
    let count = table.n;
    out.say(format_args!("ok {count}"));
    if room < count {
        end_line(out, false);
        return;
    }
    for step in table.steps.iter().take(count) {
        out.say(' ');
        say_record(out, step);
    }
    end_line(out, kept);
}
