// What a check foretells.
use crate::records::say_span;
use answers_say::{Output, end_line, say_refused};
use rules::{Foretold, Place, Span, Verdict};

// The line of a check.
pub fn say_foretold<P: Print>(out: &mut Output<P>, f: &Foretold, kept: bool) {
    match f.verdict {
        Verdict::Passes => say_pass(out, f),
        Verdict::TooFew(step) => say_fault(out, step, "few", f.span),
        Verdict::TooMany(step) => say_fault(out, step, "many", f.span),
        Verdict::Refused { number, place } => say_refused(out, number, place),
    }
    end_line(out, kept);
}

// `fails STEP`, of what (too few columns, or too many), and where the step stands.
fn say_fault<P: Print>(out: &mut Output<P>, step: usize, what: &str, span: Span) {
    out.say(format_args!("fails {step} {what} "));
    say_span(out, span);
}

// `passes DEEPEST LEFT PLACES DEPTHS`.
fn say_pass<P: Print>(out: &mut Output<P>, f: &Foretold) {
    out.say(format_args!("passes {} {} ", f.deepest, f.left));
    if f.told {
        out.list(&f.places, |out, p| say_place(out, p));
    } else {
        out.say('-');
    }
    out.say(' ');
    match f.depths.get(..f.run) {
        Some(depths) => out.list(depths, |out, depth| out.say(*depth)),
        None => out.say('?'),
    }
}

fn say_place<P: Print>(out: &mut Output<P>, p: &Place) {
    if p.minus {
        out.say('-');
    }
    out.say(p.axis);
}
