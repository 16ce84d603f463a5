// What the two modes share: the operator's number, and the arguments that two words make.
ghost use Rattle.std.specs.Prelude.{◌≡◌};
ghost use Rattle.rules.specs.Operators.Table.{number_of};
ghost use Rattle.rules.specs.Operators.Documented.{adapt_in, combined_in};
ghost use Rattle.adapt.specs.Words.{word_as};

use crate::documented::combined_by_axis;
use crate::word::Word;
use crate::words::combined;
use rules::{ADAPT, DOCUMENTED, Mode};

// The number of the operator.
pub fn operator_in(mode: Mode) -> u8
    ensures { result ≡ number_of (adapt_in mode) }
{
    match mode {
        Mode::Crate => ADAPT,
        Mode::Documented => DOCUMENTED,
    }
}

// The eight arguments that two words make.
pub fn between(from: Word, to: Word, mode: Mode) -> [i32; 8]
    ensures { result ≡ combined_in mode (word_as from) (word_as to) }
{
    match mode {
        Mode::Crate => combined(from, to),
        Mode::Documented => combined_by_axis(from, to),
    }
}
