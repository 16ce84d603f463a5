// How the text of a request is prepared: what stands behind a `/` in the request's word. A mark that is new has its line in
// `mark_of`.
use answers_wire::{part, parts};
use rules::{Mode, Reading};

// In which reading and in which mode.
#[derive(Clone, Copy, Drop)]
pub struct Way {
    pub reading: Reading,
    pub mode: Mode,
}

impl Way {
    fn new(reading: Reading, mode: Mode) -> Self {
        Way { reading, mode }
    }
}

// The mark of a word; a word without one takes the crate's reading and mode.
pub fn read_mark(word: &[u8]) -> Option<Way> {
    match parts(word, b'/') {
        1 => Some(Way::new(Reading::Crate, Mode::Crate)),
        2 => mark_of(part(word, b'/', 1)),
        _ => None,
    }
}

// `p` takes PROJ's reading, and `d` the documented mode.
fn mark_of(letters: &[u8]) -> Option<Way> {
    match letters {
        b"p" => Some(Way::new(Reading::Proj, Mode::Crate)),
        b"d" => Some(Way::new(Reading::Crate, Mode::Documented)),
        b"pd" => Some(Way::new(Reading::Proj, Mode::Documented)),
        _ => None,
    }
}
