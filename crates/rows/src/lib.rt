// A row of step records that the caller lends, and the table of 64 by value: the one read from the other, and the one
// written from the other. What the two functions over the row call goes by value.
#![tactic(auto)]

ghost use Rattle.std.specs.Prelude.{◌≡◌};
ghost use Rattle.rows.specs.Row.{blanks, tabled, emptied, laid, loaded, Fits};

use record::step_of;
use rules::{PUSH, Step, Table};

// 64 records that are never read. They are not all zeros, and the zeros are written out: then the compiler fills the row in a
// short loop, and `load` is small enough to stand in its callers, where the table is made in one place and not copied.
pub fn blank_row() -> [Step; 64]
    ensures { result ≡ blanks }
{
    let s = step_of(PUSH, [0, 0, 0, 0, 0, 0, 0, 0], 0, false, false, true);
    [s; 64]
}

// A table of them, for a row of n records.
pub fn empty(n: usize) -> Table
    ensures { result ≡ emptied n }
{
    let steps = blank_row();
    table_of(steps, n)
}

// The table that has these records, for a row of n.
fn table_of(steps: [Step; 64], n: usize) -> Table
    ensures { result ≡ tabled steps n }
{
    Table { steps, n }
}

// The table that stands for a lent row: as many of its records as have room, and its true length. The blank row has a name, and
// the end of the lent row a return of its own: so the 64 records are made once, where the caller has them, and not copied.
pub fn load(table: &[Step]) -> Table
    ensures { result ≡ loaded table.now }
{
    let n = table.len();
    let blank = blank_row();
    let mut steps = blank;
    let held = n.min(64);
    steps[..held].copy_from_slice(&table[..held]);
    table_of(steps, n)
}

// Writes the first n of 64 records over the first of the lent row; those behind them stay.
pub fn store(table: &mut [Step], steps: [Step; 64], n: usize)
    requires { Fits n table.old }
    ensures { table.new ≡ laid steps n table.old }
{
    table[..n].copy_from_slice(&steps[..n]);
}
