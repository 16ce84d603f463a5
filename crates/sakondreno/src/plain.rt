// The answers of the public calls as plain records, which C and Rust can hold: a function for each kind of answer, which says
// what its definition says (crates/rules, specs/Face/Plain.antt).
// Stays: functions and no `From`, which for these types could stand in crate rules alone; and that crate holds no function.
ghost use Rattle.std.specs.Prelude.{◌≡◌};
ghost use Rattle.rules.specs.Pipeline.Record.{reading_of};
ghost use Rattle.rules.specs.Face.Plain.{plain_written, plain_found, plain_prepared, mode_of, direction_of, plain_verdict, plain_check, plain_ran};

use rules::{
    Answer, CRATE, Checked, Direction, Done, Finished, Foretold, Found, Mode, Part, Reading,
    Refusal, Said, Verdict,
};

#[tactic(auto, unfolding(rules::specs::Face::Plain::plain_written, rules::specs::Face::Plain::plain_prepared))]
pub fn answered(w: Result<usize, Refusal>) -> Answer
    ensures { result ≡ plain_written w }
{
    Answer {
        offset: 0,
        ..counted(w)
    }
}

// ---- the walk over the steps

#[tactic(auto, unfolding(rules::specs::Face::Plain::plain_found))]
pub fn part_of(found: Option<Found>) -> Part
    ensures { result ≡ plain_found found }
{
    match found {
        Some(Found { from, to, then }) => Part {
            found: 1,
            from,
            to,
            then: then.at,
        },
        None => Part {
            found: 0,
            from: 0,
            to: 0,
            then: 0,
        },
    }
}

// ---- step tables

#[tactic(auto, unfolding(rules::specs::Face::Plain::plain_prepared))]
pub fn counted(p: Result<usize, Refusal>) -> Answer
    ensures { result ≡ plain_prepared p }
{
    match p {
        Ok(steps) => Answer {
            number: 0,
            place: 0,
            length: steps,
            offset: 0,
        },
        Err(refusal) => Answer {
            number: refusal.number,
            place: refusal.place,
            length: 0,
            offset: refusal.offset,
        },
    }
}

// 0 is the crate's reading, any other number PROJ's.
#[tactic(auto, unfolding(rules::specs::Pipeline::Record::reading_of))]
pub fn reading_of(number: u8) -> Reading
    ensures { result ≡ reading_of number }
{
    match number {
        CRATE => Reading::Crate,
        _ => Reading::Proj,
    }
}

// 0 is the crate's mode, any other number the documented.
#[tactic(auto, unfolding(rules::specs::Face::Plain::mode_of))]
pub fn mode_of(number: u8) -> Mode
    ensures { result ≡ mode_of number }
{
    match number {
        0 => Mode::Crate,
        _ => Mode::Documented,
    }
}

// 0 is forward, any other number inverse.
#[tactic(auto, unfolding(rules::specs::Face::Plain::direction_of))]
pub fn direction_of(inverse: u8) -> Direction
    ensures { result ≡ direction_of inverse }
{
    match inverse {
        0 => Direction::Forward,
        _ => Direction::Inverse,
    }
}

#[tactic(auto, unfolding(rules::specs::Face::Plain::plain_verdict))]
pub fn verdict_of(v: Verdict) -> Said
    ensures { result ≡ plain_verdict v }
{
    match v {
        Verdict::Passes => Said {
            number: 0,
            place: 0,
        },
        Verdict::TooFew(place) => Said { number: 1, place },
        Verdict::TooMany(place) => Said { number: 2, place },
        Verdict::Refused { number, place } => Said { number, place },
    }
}

#[tactic(auto, unfolding(rules::specs::Face::Plain::plain_check))]
pub fn checked_of(f: Foretold) -> Checked
    ensures { result ≡ plain_check f }
{
    let depths = f.depths;
    let places = f.places;
    Checked {
        said: verdict_of(f.verdict),
        span: f.span,
        run: f.run,
        depths,
        deepest: f.deepest,
        left: f.left,
        told: f.told,
        places,
    }
}

#[tactic(auto, unfolding(rules::specs::Face::Plain::plain_ran))]
pub fn ended(ran: Result<Finished, Refusal>) -> Done
    ensures { result ≡ plain_ran ran }
{
    match ran {
        Ok(Finished { count, left }) => Done {
            number: 0,
            place: 0,
            count,
            left,
        },
        Err(refusal) => Done {
            number: refusal.number,
            place: refusal.place,
            count: 0,
            left: 0,
        },
    }
}
