// The words of refusals, and the end of a line.
use crate::output::Output;
use rules::Refusal;

// The refusal that has an offset.
const LOCATED: u8 = 12;

// A refusal of preparing, and whether what was lent to it was kept.
#[derive(Clone, Copy, Drop)]
pub struct Unprepared {
    pub refusal: Refusal,
    pub kept: bool,
}

// `refused N PLACE`.
pub fn say_refused<P: Print>(out: &mut Output<P>, number: u8, place: usize) {
    out.say(format_args!("refused {number} {place}"));
}

// A refusal as a line of its own.
pub fn say_refusal<P: Print>(out: &mut Output<P>, refusal: Refusal, kept: bool) {
    say_refused(out, refusal.number, refusal.place);
    end_line(out, kept);
}

// A refusal of preparing, which for 12 has an offset: `refused 12 PLACE OFFSET`.
pub fn say_unprepared<P: Print>(out: &mut Output<P>, unprepared: Unprepared) {
    let refusal = unprepared.refusal;
    say_refused(out, refusal.number, refusal.place);
    if refusal.number == LOCATED {
        out.say(format_args!(" {}", refusal.offset));
    }
    end_line(out, unprepared.kept);
}

// Ends a line, with ` spoilt` where lent storage was not kept.
pub fn end_line<P: Print>(out: &mut Output<P>, kept: bool) {
    out.say(if kept { "\n" } else { " spoilt\n" });
}
