// The command line of the program `steps`. A new option is a field of `Options`, its word in `take`, and its line in `print_help`.
use rules::{Mode, Reading};
use std::io::Print;
use std::rt::Env;

// The most bytes of an argument that is taken.
pub const MOST_ARGUMENT: usize = 4096;

// What the command line asks for. An argument is named by its number.
#[derive(Clone, Copy, Drop)]
pub struct Options {
    pub help: bool,
    pub version: bool,
    pub reading: Reading,
    pub mode: Mode,
    // The argument that names the file.
    pub file: Option<usize>,
    // The first argument that cannot be taken.
    pub wrong: Option<usize>,
}

impl Options {
    fn new() -> Self {
        Options {
            help: false,
            version: false,
            reading: Reading::Crate,
            mode: Mode::Crate,
            file: None,
            wrong: None,
        }
    }

    // Takes argument i, whatever it is.
    fn take_argument(&mut self, env: &impl Env, i: usize) {
        let mut word = [0; MOST_ARGUMENT];
        match env.arg(i, &mut word) {
            Ok(n) => self.take(&word[..n], i),
            Err(_) => self.refuse(i),
        }
    }

    // Takes argument i, which is this word: the one home of the options' words.
    fn take(&mut self, word: &[u8], i: usize) {
        match word {
            b"--help" => self.help = true,
            b"--version" => self.version = true,
            b"--proj" => self.reading = Reading::Proj,
            b"--documented" => self.mode = Mode::Documented,
            _ if is_option(word) => self.refuse(i),
            _ => self.take_file(i),
        }
    }

    // Takes argument i, which names a file: there is one at most.
    fn take_file(&mut self, i: usize) {
        if self.file.is_some() {
            self.refuse(i);
        } else {
            self.file = Some(i);
        }
    }

    // Argument i cannot be taken.
    fn refuse(&mut self, i: usize) {
        self.wrong = self.wrong.or(Some(i));
    }
}

// Is the word an option, known or not? `-` alone is a file's name.
fn is_option(word: &[u8]) -> bool {
    matches!(word, [b'-', _, ..])
}

// What the command line asks for.
pub fn asked(env: &impl Env) -> Options {
    let mut options = Options::new();
    for i in 1..streams::arg_count(env) {
        options.take_argument(env, i);
    }
    options
}

// A byte as it is printed: a question mark for one that ends a line or is not seen.
fn seen(b: u8) -> u8 {
    if b.is_ascii_control() { b'?' } else { b }
}

// The beginning of a complaint: the program's name, and the word at fault with its first quote.
pub fn blame(to: &impl Print, word: &mut [u8]) {
    for b in word.iter_mut() {
        *b = seen(*b);
    }
    let _ = to.print("steps: '");
    let _ = to.write_all(word);
}

// Says why a word cannot be taken.
fn refuse_word(to: &impl Print, word: &mut [u8]) {
    blame(to, word);
    let _ = to.println(if is_option(word) {
        "': there is no such option (see --help)"
    } else {
        "': a second file, and only one is read"
    });
}

// Says why argument i cannot be taken.
pub fn refuse(env: &impl Env, to: &impl Print, i: usize) {
    let mut word = [0; MOST_ARGUMENT];
    match env.arg(i, &mut word) {
        Ok(n) => refuse_word(to, &mut word[..n]),
        Err(_) => {
            let _ = println!(to; "steps: argument {i} is too long");
        }
    }
}

pub fn print_version(to: &impl Print) {
    let _ = to.println("steps (sakondreno) 0.1.0");
}

// The help ends with the version: the script knows both by that line.
pub fn print_help(to: &impl Print) {
    let _ = to.println(
        "usage: steps [--proj] [--documented] [FILE]

Says what becomes of a pipeline's definition: its translation, if it is
written in PROJ's language, its steps, and what a run of them will do,
forward and inverse, or the first step that finds too few columns or
leaves too many.

The definition is read from FILE, or from standard input where there is
no FILE or it is `-`. It has 4,096 bytes at most.

  --proj        read it as PROJ does: `inv` turns every operator, and not
                only `axisswap` and `adapt`
  --documented  take `adapt` as its own page describes it: sign and angle
                belong to an axis, and not to a position
  --help        print this
  --version     print the version

An example:

  printf 'push v_3 | axisswap order=2,1 | pop v_3' | ./steps

The script ./steps ends with status 0 where both directions pass, 1 where
the definition is refused or a direction fails, 2 where it is called
wrongly, and 3 where the program cannot be built or its answer cannot be
written.
",
    );
    print_version(to);
}
