// Writing the text of a step record, and of a whole table: what preparing it gives is the record again.
#![tactic(auto)]

mod words;

ghost use Rattle.std.specs.Prelude.{◌≡◌, true, [], ◌∷◌, ltb, None};
ghost use Rattle.rules.specs.Text.Refusal.{Lends};
ghost use Rattle.rules.specs.Pipeline.Record.{made, refusal18, listed};
ghost use Rattle.text.specs.Wrote.{WroteAt};
ghost use Rattle.rules.specs.Pipeline.Write.{writing, table_writing, write};
ghost use Rattle.numbers.specs.Parts.{Room};
ghost use Rattle.write.specs.Parts.{parted};

use record::{good_in, refusal18};
use rules::{Refusal, Step, Table};
use text::{hand_out, put};
use words::step;

// The text of a record, after ` | ` if it is not the first.
fn parted(i: usize, s: Step, out: &mut [u8], o: usize) -> usize
    requires s_value { made s ≡ true }
    requires room { Room (parted (ltb 0 i) s) o out.old }
    ensures { WroteAt (parted (ltb 0 i) s) out.old o result out.new }
{
    if 0 < i {
        let e = put(b" | ", out, o);
        return step(s, out, e);
    }
    step(s, out, o)
}

// The texts of a table's records with ` | ` between.
fn steps(table: Table, out: &mut [u8], o: usize) -> usize
    requires table_value { refusal18 (listed table) ≡ None }
    requires room { Room (table_writing (listed table)) o out.old }
    ensures { WroteAt (table_writing (listed table)) out.old o result out.new }
{
    let mut e = o;
    for i in 0..table.n {
        e = parted(i, table.steps[i], out, e);
    }
    e
}

// Writes the text of a record to the front of out: 18 at 1 for a record that no preparation makes or whose span is empty or too far, then
// 7 for a buffer that is too short; and then out is as it was.
pub fn write_step(s: Step, out: &mut [u8]) -> Result<usize, Refusal>
    ensures { Lends (write (s ∷ [])) out.old result out.new }
{
    if !good_in(s, s.reading, 0) {
        return Err(Refusal {
            number: 18,
            place: 1,
            offset: 0,
        });
    }
    let mut a = [0u8; 64];
    let n = step(s, &mut a, 0);
    hand_out(&a[..n], out)
}

// Writes the texts of a table's records, with ` | ` between, to the front of out: 18, then 7; and then out is as it was.
pub fn write(table: Table, out: &mut [u8]) -> Result<usize, Refusal>
    ensures { Lends (write (listed table)) out.old result out.new }
{
    if let Some(place) = refusal18(table) {
        return Err(Refusal {
            number: 18,
            place,
            offset: 0,
        });
    }
    written(table, out)
}

// The same for a table that is not refused 18.
fn written(table: Table, out: &mut [u8]) -> Result<usize, Refusal>
    requires { refusal18 (listed table) ≡ None }
    ensures { Lends (write (listed table)) out.old result out.new }
{
    let mut a = [0u8; 4096];
    let n = steps(table, &mut a, 0);
    hand_out(&a[..n], out)
}
