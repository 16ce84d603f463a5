// The refusals 11 to 13 of a step's parameters, and where 12 is; and the series among them, which is read once.
ghost use Rattle.std.specs.Prelude.{◌≡◌, [], ◌∷◌, ◌+◌, ◌≤◌, length};
ghost use Rattle.parameters.specs.Tables.{text};
ghost use Rattle.prepare.specs.Lookup.{placed_in};
ghost use Rattle.prepare.specs.Faults.{placed, flag_fault, earlier, without, joined, Finds};

use crate::keys::kind_of;
use crate::series::{Numbers, series};
use parameters::Parameters;
use rules::{Kind, Name};
use text::is_same;

// What a step is refused by: its number, and of 12 the byte of the step's text at which the fault is.
#[derive(Clone, Copy, Drop)]
pub struct Fault {
    pub number: u8,
    pub at: usize,
}

// What parameters may be refused by: the lowest number of 11 to 14, which is 14 where none of the others applies; where that is 12, the
// byte of the step's text at which the first fault is; and the first series among them, if there is one.
#[derive(Clone, Copy, Drop)]
pub struct Lowest {
    pub number: u8,
    pub at: usize,
    pub series: Option<Numbers>,
}

// That number, at that byte, and no series.
fn without_series(number: u8, at: usize) -> Lowest
    ensures { result ≡ without number at }
{
    Lowest {
        number,
        at,
        series: None,
    }
}

// A flag is "bare or `=true`".
fn fault_of_flag(value: &[u8]) -> u8
    ensures { result ≡ flag_fault value.now }
{
    if is_same(value, b"true") { 14 } else { 12 }
}

// Of one parameter, whose value begins at byte `at` of the step's text.
fn fault_of(name: Name, key: &[u8], value: &[u8], at: usize) -> Lowest
    requires { at + length value.now ≤ 65535 }
    ensures { Finds name (placed key.now value.now at ∷ []) result }
{
    match kind_of(name, key) {
        None => without_series(11, at),
        Some(Kind::Flag) => without_series(fault_of_flag(value), at),
        Some(Kind::Word) => without_series(14, at),
        Some(Kind::Series) => {
            let numbers = series(value, at);
            Lowest {
                number: numbers.number,
                at: numbers.at,
                series: Some(numbers),
            }
        }
    }
}

// "with both, the earlier byte is reported": of two numbers, each with its byte, the byte of the one that is 12, or the earlier.
fn earlier_of(a: u8, at_a: usize, b: u8, at_b: usize) -> usize
    ensures { result ≡ earlier a at_a b at_b }
{
    match (a == 12, b == 12) {
        (true, true) => at_a.min(at_b),
        (true, false) => at_a,
        (false, _) => at_b,
    }
}

// Of parameters and of those behind them.
fn both(first: Lowest, rest: Lowest) -> Lowest
    ensures { result ≡ joined first rest }
{
    let number = first.number.min(rest.number);
    let at = earlier_of(first.number, first.at, rest.number, rest.at);
    Lowest {
        number,
        at,
        series: first.series.or(rest.series),
    }
}

// Of all of them, one after the other.
pub fn lowest_of(table: &Parameters, name: Name) -> Lowest
    requires { length (text table.now) ≤ 40969 }
    ensures { Finds name (placed_in table.now) result }
{
    let mut low = without_series(14, 0);
    for p in table.held() {
        let fault = fault_of(name, table.key(*p), table.value(*p), table.value_at(*p));
        low = both(low, fault);
    }
    low
}
