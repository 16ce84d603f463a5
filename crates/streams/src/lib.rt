// What the programs share of the outside world, over std: output, the arguments, a file by its name, and the line that says
// why a call of the system failed.
#![tactic(auto)]

use std::env::FillError;
use std::fs::File;
use std::io::{Cursor, Error, Print, Write};
use std::rt::{Env, Files};
use std::str::from_utf8;
use std::{fs, io};

// What the system answers where a name is no text in the encoding that it takes (EILSEQ).
const NOT_TEXT: i32 = 84;

// How many arguments the program was started with, its own name among them.
pub fn arg_count(env: &impl Env) -> usize {
    (0..usize::MAX)
        .find(|i| is_missing(env, *i))
        .unwrap_or(usize::MAX)
}

// Is there no argument i? One that is too long for the buffer is there.
fn is_missing(env: &impl Env, i: usize) -> bool {
    matches!(env.arg(i, &mut []), Err(FillError::NotPresent))
}

// Opens the file of this name for reading. A name that is not UTF-8 is refused: std opens no other.
pub fn open_read<R: Files>(files: &R, name: &[u8]) -> io::Result<R::File> {
    match from_utf8(name) {
        Ok(path) => File::open(files, path),
        Err(_) => Err(Error::from_raw_os_error(NOT_TEXT)),
    }
}

// Writes a line: what failed, as the caller names it, a colon and why. A write that fails is not told.
pub fn fail(to: &impl Print, what: &[u8], error: Error) {
    let mut room = Cursor::new([0u8; 256]);
    let _ = write!(room, "{error}");
    let bytes = room.into_inner();
    let text = from_utf8(&bytes).unwrap_or("");
    let _ = to.write_all(what);
    let _ = to.write_all(b": ");
    let _ = to.write_all(reason(text).as_bytes());
    let _ = to.write_all(b"\n");
}

// Why a call failed, without the error's number, which std puts behind it, and without the zeros of the room.
fn reason(text: &str) -> &str {
    match text.split_once(" (os error ") {
        Some((why, _)) => why,
        None => text.trim_end_matches('\0'),
    }
}
