// The requests that take a text and answer a text: the calls on a text, and what the program `steps` prints of one. A
// request that is new is a variant of `TextCall`, its word in `asked_text` and its call in `call_on`.
use crate::ask::{Unanswered, expect_fields};
use crate::rooms::MOST_ROOM;
use answers_say::{Lent, Output, say_lent};
use answers_wire::{field, read_natural, read_text};
use normalise::{definition, normalise};
use parameters::parameters;
use proj::translate;
use rules::{Mode, Reading, Refusal};
use split::split;

// The calls that take a text and write a text into lent storage.
#[derive(Clone, Copy, Drop)]
pub enum TextCall {
    Normalise,
    Split,
    Parameters,
    Translate,
    Definition,
}

// Makes the call that was asked for.
// Stays: cases in place of function pointers are a rule of the project.
fn call_on(call: TextCall, text: &[u8], room: &mut [u8]) -> Result<usize, Refusal> {
    match call {
        TextCall::Normalise => normalise(text, room),
        TextCall::Split => split(text, room),
        TextCall::Parameters => parameters(text, room),
        TextCall::Translate => translate(text, room),
        TextCall::Definition => definition(text, room),
    }
}

// `CALL ROOM TEXT`.
pub fn answer_text<P: Print>(
    out: &mut Output<P>,
    call: TextCall,
    line: &[u8],
    text: &mut [u8; 65536],
    lent: &mut [u8; 131088],
) -> Result<(), Unanswered> {
    expect_fields(line, 3)?;
    let room = read_natural(field(line, 1), MOST_ROOM).ok_or(Unanswered::NoRequest)?;
    let text = read_text(field(line, 2), text).ok_or(Unanswered::NoRequest)?;
    let lent = Lent::new(lent, room);
    let written = call_on(call, text, lent.room);
    say_lent(out, written, lent);
    Ok(())
}

// `steps TEXT`.
pub fn answer_steps<P: Print>(
    out: &mut Output<P>,
    line: &[u8],
    text: &mut [u8; 65536],
) -> Result<(), Unanswered> {
    expect_fields(line, 2)?;
    let text = read_text(field(line, 1), text).ok_or(Unanswered::NoRequest)?;
    say_shown(out, text);
    Ok(())
}

// `ok TEXT`.
fn say_shown<P: Print>(out: &mut Output<P>, text: &[u8]) {
    let mut a = [0; 65536];
    let mut b = [0; 65536];
    // Room for all that can be printed.
    let mut room = [0; 139264];
    let n = show::show(text, Reading::Crate, Mode::Crate, &mut a, &mut b, &mut room);
    out.say("ok ");
    out.hex(&room[..n]);
    out.say('\n');
}
