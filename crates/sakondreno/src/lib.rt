// The public calls, and nothing else. For Rattle by their names, each with its contract where it stands; for C and Rust by names
// that begin with `sakondreno_`, which answer in plain records (src/plain.rt), thin over the others. Crate sakondreno_c exports
// these. No call has a `requires`.
#![tactic(auto)]

mod plain;

ghost use Rattle.std.specs.Prelude.{◌≡◌};
ghost use Rattle.rules.specs.Text.Refusal.{Promised};
ghost use Rattle.rules.specs.Text.Normal.{normalise};
ghost use Rattle.rules.specs.Text.Split.{split};
ghost use Rattle.rules.specs.Text.Parameters.{parameters};
ghost use Rattle.rules.specs.Proj.Translate.{translate};
ghost use Rattle.rules.specs.Pipeline.Record.{reading_of};
ghost use Rattle.rules.specs.Pipeline.Prepare.{prepare, prepare_as};
ghost use Rattle.rules.specs.Text.Reader.{next, define};
ghost use Rattle.rules.specs.Face.Plain.{replied, plain_found, record_count, mode_of, PlainChecks, PlainRuns};

pub use entry::{check, prepare, prepare_as, run};
pub use normalise::{definition, normalise};
pub use parameters::parameters;
pub use proj::translate;
pub use reader::{Reader, next_from};
pub use rules::{
    Answer, Checked, Cursor, Direction, Done, Finished, Foretold, Found, Mode, Part, Place,
    Reading, Refusal, Said, Span, Step, Table, Verdict,
};
pub use split::split;
pub use write::{write, write_step};

// Brings a definition into its normal form.
pub fn sakondreno_normalise(text: &[u8], out: &mut [u8]) -> Answer
    ensures { Promised replied normalise text.now out.old result out.new }
{
    plain::answered(normalise::normalise(text, out))
}

// Brings a definition without its comments into its normal form: the text in which spans are counted.
pub fn sakondreno_definition(text: &[u8], out: &mut [u8]) -> Answer
    ensures { Promised replied define text.now out.old result out.new }
{
    plain::answered(normalise::definition(text, out))
}

// Cuts a definition into its steps, each with a newline after it.
pub fn sakondreno_split(text: &[u8], out: &mut [u8]) -> Answer
    ensures { Promised replied split text.now out.old result out.new }
{
    plain::answered(split::split(text, out))
}

// Cuts a step into its parameters, each as `key=value` with a newline after it.
pub fn sakondreno_parameters(text: &[u8], out: &mut [u8]) -> Answer
    ensures { Promised replied parameters text.now out.old result out.new }
{
    plain::answered(parameters::parameters(text, out))
}

// Turns a PROJ text into a definition.
pub fn sakondreno_translate(text: &[u8], out: &mut [u8]) -> Answer
    ensures { Promised replied translate text.now out.old result out.new }
{
    plain::answered(proj::translate(text, out))
}

// ---- the walk over the steps

// The next step of a normalised text from the place `at` on.
pub fn sakondreno_next(text: &[u8], at: usize) -> Part
    ensures { result ≡ plain_found (next text.now at) }
{
    plain::part_of(reader::next_from(text, at))
}

// ---- step tables: rows of step records that the caller lends

// Makes step records of a definition: number 0 and how many they are, and they stand at the front of the lent row; or the
// refusal's number and place, and the row is as it was.
pub fn sakondreno_prepare(text: &[u8], table: &mut [Step]) -> Answer
    ensures { Promised record_count prepare text.now table.old result table.new }
{
    plain::counted(entry::prepare(text, table))
}

// The same in a reading and a mode: 0 is the crate's, any other number PROJ's reading or the documented mode.
pub fn sakondreno_prepare_as(text: &[u8], reading: u8, mode: u8, table: &mut [Step]) -> Answer
    ensures { Promised record_count (prepare_as (reading_of reading) (mode_of mode)) text.now table.old result table.new }
{
    let how = plain::reading_of(reading);
    let page = plain::mode_of(mode);
    plain::counted(entry::prepare_as(text, how, page, table))
}

// Says of a step table and a direction, without any data, what a run will do.
pub fn sakondreno_check(table: &[Step], inverse: u8) -> Checked
    ensures { PlainChecks inverse table.now result }
{
    let d = plain::direction_of(inverse);
    plain::checked_of(entry::check(table, d))
}

// Runs a step table over a list of tuples, four numbers each, and a store for columns.
pub fn sakondreno_run(table: &[Step], inverse: u8, tuples: &mut [f64], columns: &mut [f64]) -> Done
    ensures { PlainRuns inverse table.now tuples.old columns.old result tuples.new columns.new }
{
    let d = plain::direction_of(inverse);
    plain::ended(entry::run(table, d, tuples, columns))
}
