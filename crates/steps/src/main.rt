// The program `steps`: reads a definition from standard input or a file and prints its translation, its steps, and what a run will
// do.
#![tactic(auto)]

mod options;

ghost use Rattle.std.specs.Prelude.{◌≤◌, IfOk, length};

use options::{MOST_ARGUMENT, Options};
use std::fs::File;
use std::io;
use std::io::{Error, Print, Read, Stdin};
use std::rt::Env;

// Reads until the room is full, the input ends or a read fails, and answers how many bytes were read.
fn read_input(from: &mut impl Read, room: &mut [u8]) -> io::Result<usize>
    ensures { IfOk result (λ n. n ≤ length room.new) }
{
    // Stays: a `for` is no plainer, as a read takes as many bytes as it likes, and the room ends the loop.
    let mut n = 0;
    while n < room.len() {
        match from.read(&mut room[n..])? {
            0 => break,
            more => n += more,
        }
    }
    Ok(n)
}

// Prints what becomes of a definition.
fn show_text(to: &impl Print, text: &[u8], options: Options) {
    let mut a = [0; 65536];
    let mut b = [0; 65536];
    // Room for all that can be printed.
    let mut out = [0; 139264];
    let n = show::show(
        text,
        options.reading,
        options.mode,
        &mut a,
        &mut b,
        &mut out,
    );
    let _ = to.write_all(&out[..n]);
}

// Where a definition is read from.
#[derive(Drop)]
enum Source {
    Standard(Stdin),
    Named(File),
}

impl Read for Source {
    fn read(&mut self, buf: &mut [u8]) -> io::Result<usize> {
        match self {
            Source::Standard(stdin) => stdin.read(buf),
            Source::Named(file) => file.read(buf),
        }
    }
}

// Opens the input of this name.
fn open_input(rt: &HostRuntime, name: &[u8]) -> io::Result<Source> {
    match name {
        b"-" => Ok(Source::Standard(rt.stdin())),
        _ => Ok(Source::Named(streams::open_read(rt, name)?)),
    }
}

// Says why the input of this name cannot be read.
fn complain(to: &impl Print, name: &mut [u8], error: Error) {
    if matches!(name, [b'-']) {
        streams::fail(to, b"steps: standard input", error);
        return;
    }
    options::blame(to, name);
    streams::fail(to, b"'", error);
}

// Prints what becomes of the definition in the input of this name.
fn show_input(rt: &HostRuntime, name: &mut [u8], options: Options) {
    if let Err(error) = try_show(rt, name, options) {
        complain(&rt.stderr(), name, error);
    }
}

// The same, where the input can be read.
fn try_show(rt: &HostRuntime, name: &[u8], options: Options) -> io::Result<()> {
    let mut source = open_input(rt, name)?;
    // One that fills the room is too long, as is any over 4,096 bytes.
    let mut room = [0; 131073];
    let n = read_input(&mut source, &mut room)?;
    show_text(rt, &room[..n], options);
    Ok(())
}

// Prints what becomes of the definition in the file that the options name, or in standard input.
fn show_asked(rt: &HostRuntime, options: Options) {
    let Some(file) = options.file else {
        show_input(rt, &mut [b'-'], options);
        return;
    };
    let mut name = [0; MOST_ARGUMENT];
    let n = rt.arg(file, &mut name).unwrap_or(0);
    show_input(rt, &mut name[..n], options);
}

fn main(rt: HostRuntime) {
    let options = options::asked(&rt);
    if let Some(wrong) = options.wrong {
        options::refuse(&rt, &rt.stderr(), wrong);
    } else if options.help {
        options::print_help(&rt);
    } else if options.version {
        options::print_version(&rt);
    } else {
        show_asked(&rt, options);
    }
}
