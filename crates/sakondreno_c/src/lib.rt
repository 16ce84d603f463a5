// The public calls for C and Rust, as a static library: each is the library's call of that name, with the same contract. A `&[u8]` passes as
// a pointer and then a length, and so does a row of step records. No call has a `requires`.
#![tactic(auto)]

ghost use Rattle.std.specs.Prelude.{◌≡◌};
ghost use Rattle.rules.specs.Text.Refusal.{Promised};
ghost use Rattle.rules.specs.Text.Normal.{normalise};
ghost use Rattle.rules.specs.Text.Split.{split};
ghost use Rattle.rules.specs.Text.Parameters.{parameters};
ghost use Rattle.rules.specs.Proj.Translate.{translate};
ghost use Rattle.rules.specs.Pipeline.Record.{reading_of};
ghost use Rattle.rules.specs.Pipeline.Prepare.{prepare, prepare_as};
ghost use Rattle.rules.specs.Text.Reader.{next, define};
ghost use Rattle.rules.specs.Face.Plain.{replied, plain_found, record_count, mode_of, PlainChecks, PlainRuns};

use rules::{Answer, Checked, Done, Part, Step};

// Brings a definition into its normal form.
#[unsafe(no_mangle)]
pub extern "C" fn sakondreno_normalise(text: &[u8], out: &mut [u8]) -> Answer
    ensures { Promised replied normalise text.now out.old result out.new }
{
    sakondreno::sakondreno_normalise(text, out)
}

// Brings a definition without its comments into its normal form: the text in which spans are counted.
#[unsafe(no_mangle)]
pub extern "C" fn sakondreno_definition(text: &[u8], out: &mut [u8]) -> Answer
    ensures { Promised replied define text.now out.old result out.new }
{
    sakondreno::sakondreno_definition(text, out)
}

// Cuts a definition into its steps, each with a newline after it.
#[unsafe(no_mangle)]
pub extern "C" fn sakondreno_split(text: &[u8], out: &mut [u8]) -> Answer
    ensures { Promised replied split text.now out.old result out.new }
{
    sakondreno::sakondreno_split(text, out)
}

// Cuts a step into its parameters, each as `key=value` with a newline after it.
#[unsafe(no_mangle)]
pub extern "C" fn sakondreno_parameters(text: &[u8], out: &mut [u8]) -> Answer
    ensures { Promised replied parameters text.now out.old result out.new }
{
    sakondreno::sakondreno_parameters(text, out)
}

// Turns a PROJ text into a definition.
#[unsafe(no_mangle)]
pub extern "C" fn sakondreno_translate(text: &[u8], out: &mut [u8]) -> Answer
    ensures { Promised replied translate text.now out.old result out.new }
{
    sakondreno::sakondreno_translate(text, out)
}

// The next step of a normalised text from the place `at` on.
#[unsafe(no_mangle)]
pub extern "C" fn sakondreno_next(text: &[u8], at: usize) -> Part
    ensures { result ≡ plain_found (next text.now at) }
{
    sakondreno::sakondreno_next(text, at)
}

// Makes step records of a definition: number 0 and how many they are, and they stand at the front of the lent row; or the
// refusal's number and place, and the row is as it was.
#[unsafe(no_mangle)]
pub extern "C" fn sakondreno_prepare(text: &[u8], table: &mut [Step]) -> Answer
    ensures { Promised record_count prepare text.now table.old result table.new }
{
    sakondreno::sakondreno_prepare(text, table)
}

// The same in a reading and a mode: 0 is the crate's, any other number PROJ's reading or the documented mode.
#[unsafe(no_mangle)]
pub extern "C" fn sakondreno_prepare_as(
    text: &[u8],
    reading: u8,
    mode: u8,
    table: &mut [Step],
) -> Answer
    ensures { Promised record_count (prepare_as (reading_of reading) (mode_of mode)) text.now table.old result table.new }
{
    sakondreno::sakondreno_prepare_as(text, reading, mode, table)
}

// Says of a step table and a direction, without any data, what a run will do.
#[unsafe(no_mangle)]
pub extern "C" fn sakondreno_check(table: &[Step], inverse: u8) -> Checked
    ensures { PlainChecks inverse table.now result }
{
    sakondreno::sakondreno_check(table, inverse)
}

// Runs a step table over a list of tuples, four numbers each, and a store for columns.
#[unsafe(no_mangle)]
pub extern "C" fn sakondreno_run(
    table: &[Step],
    inverse: u8,
    tuples: &mut [f64],
    columns: &mut [f64],
) -> Done
    ensures { PlainRuns inverse table.now tuples.old columns.old result tuples.new columns.new }
{
    sakondreno::sakondreno_run(table, inverse, tuples, columns)
}
