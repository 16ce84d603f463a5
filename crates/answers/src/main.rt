// The program that the tests speak to: it reads requests from standard input to its end, one a line, and writes exactly one line
// for each. It holds no rule of its own: it decodes, lends storage, calls the library and prints. A line of over
// 131,072 bytes is answered as no request.
#![tactic(auto)]

mod ask;
mod checks;
mod given;
mod input;
mod marks;
mod prepares;
mod rooms;
mod runs;
mod tables;
mod texts;
mod writes;

ghost use Rattle.std.specs.Prelude.{◌≤◌, length};

use answers_say::{Output, UNTOUCHED};
use answers_wire::last_newline;
use input::Input;
use rooms::Rooms;

// Answers each whole line of the input, whose first `seen` bytes have no newline, and answers where the line that has
// begun starts.
fn answer_lines<P: Print>(
    out: &mut Output<P>,
    input: &[u8],
    seen: usize,
    rooms: &mut Rooms,
) -> usize
    ensures { result ≤ length input.now }
{
    let Some(last) = last_newline(input, seen) else {
        return 0;
    };
    for line in input[..last].split(|b| *b == b'\n') {
        ask::answer(out, line, rooms);
    }
    last + 1
}

// Answers the last line, where it has no newline.
fn answer_last<P: Print>(out: &mut Output<P>, line: &[u8], rooms: &mut Rooms) {
    if !line.is_empty() {
        ask::answer(out, line, rooms);
    }
}

// A proved loop has to end, and nothing says that the input does: it counts its turns, of which no run takes the most.
fn serve(rt: &HostRuntime, rooms: &mut Rooms) {
    let mut stdin = rt.stdin();
    let mut input = Input::new();
    let mut out = Output::new(rt);
    for _turn in 0..u64::MAX {
        let seen = input.as_slice().len();
        if input.read(&mut stdin) == 0 {
            answer_last(&mut out, input.as_slice(), rooms);
            out.flush();
            return;
        }
        let start = answer_lines(&mut out, input.as_slice(), seen, rooms);
        out.flush();
        input.keep_from(start);
    }
}

// Makes the rooms.
fn main(rt: HostRuntime) {
    let mut text = [0; 65536];
    let mut lent = [UNTOUCHED; 131088];
    let mut list = [0.0; 262164];
    let mut store = [0.0; 262164];
    let mut rooms = Rooms {
        text: &mut text,
        lent: &mut lent,
        list: &mut list,
        store: &mut store,
    };
    serve(&rt, &mut rooms);
}
