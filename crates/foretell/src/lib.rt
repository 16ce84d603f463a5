// The check: the steps run on signed places instead of numbers.
#![tactic(auto)]

mod acts;

ghost use Rattle.std.specs.Prelude.{◌≡◌, cond, not, ◌||◌, max, replicate, None};
ghost use Rattle.rules.specs.Pipeline.Record.{refusal18, listed};
ghost use Rattle.rules.specs.Pipeline.Running.{running};
ghost use Rattle.rules.specs.Pipeline.Check.{plus, no_place, only, checked, Checks};
ghost use Rattle.foretell.specs.Steps.{beginning};

use acts::{Fault, is_adapting, judge, step};
use columns::Traced;
use record::{NO_SPAN, act_of, is_omitted, refusal18, visited_of};
use rules::{Direction, Foretold, Place, Span, Table, Verdict};

// What tells of no place.
const NO_PLACE: Place = Place {
    axis: 0,
    minus: false,
};

// A place, its sign kept.
const fn place(axis: u8) -> Place
    ensures { result ≡ plus axis }
{
    Place { axis, minus: false }
}

// An answer that tells no more than its verdict, and a span.
#[tactic(auto, unfolding(rules::specs::Pipeline::Check::only))]
fn only(verdict: Verdict, span: Span) -> Foretold
    ensures { result ≡ only verdict span }
{
    Foretold {
        verdict,
        span,
        run: 0,
        depths: [0; 64],
        deepest: 0,
        left: 0,
        told: false,
        places: [NO_PLACE; 4],
    }
}

// Places 1 to 4, and no columns.
fn begun() -> Traced
    ensures { result ≡ beginning }
{
    Traced {
        tuple: [place(1), place(2), place(3), place(4)],
        columns: [NO_PLACE; 64],
        top: 64,
    }
}

// The places that are told, if no `adapt` step ran.
fn told_places(tuple: [Place; 4], adapts: bool) -> [Place; 4]
    ensures { result ≡ cond (not adapts) tuple (replicate 4 no_place) }
{
    if adapts { [NO_PLACE; 4] } else { tuple }
}

// The check of records that preparations make. A step at fault is named with its span.
fn checked(table: Table, direction: Direction) -> Foretold
    requires { refusal18 (listed table) ≡ None }
    ensures { result ≡ checked None (listed table) (running direction (listed table)) }
{
    let n = table.n;
    let mut t = begun();
    let mut depths = [0; 64];
    let mut run = 0;
    let mut deepest = 0;
    let mut adapts = false;
    for k in 0..n {
        let i = visited_of(direction, k, n);
        let s = table.steps[i];
        if is_omitted(s, direction) {
            continue;
        }
        let d = act_of(s, direction);
        match judge(d, 64 - t.top) {
            Err(Fault::Few) => return only(Verdict::TooFew(i + 1), s.span),
            Err(Fault::Many) => return only(Verdict::TooMany(i + 1), s.span),
            Ok(after) => {
                t = step(t, d);
                depths[run] = after;
                run += 1;
                deepest = deepest.max(after);
                adapts |= is_adapting(d);
            }
        }
    }
    Foretold {
        verdict: Verdict::Passes,
        span: NO_SPAN,
        run,
        depths,
        deepest,
        left: 64 - t.top,
        told: !adapts,
        places: told_places(t.tuple, adapts),
    }
}

// Says of a step table and a direction, without any data: passes, and what it foretells; or the first step at fault.
pub fn check(table: Table, direction: Direction) -> Foretold
    ensures { Checks direction (listed table) result }
{
    match refusal18(table) {
        Some(place) => only(Verdict::Refused { number: 18, place }, NO_SPAN),
        None => checked(table, direction),
    }
}
