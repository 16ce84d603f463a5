// Series of numbers: from a text to arguments.
ghost use Rattle.std.specs.Prelude.{◌+◌, ◌≤◌, length};
ghost use Rattle.prepare.specs.SeriesRead.{Reads};

use crate::decimal::{byte_end, decimal};
use numbers::signed;

// Arguments: the first n of eight slots, with zeros behind them.
// Stays: there is no heap, and a record's arguments are of fixed size.
#[derive(Clone, Copy, Drop)]
pub struct Args {
    pub list: [i32; 8],
    pub n: usize,
}

// What a series gives: the lowest number of 12, 13 and 14 that it may be refused by; where that is 12, the byte of the step's text
// at which the first element begins that is no number; and, where it is 14, whether all its numbers are whole, and these.
#[derive(Clone, Copy, Drop)]
pub struct Numbers {
    pub number: u8,
    pub at: usize,
    pub whole: bool,
    pub args: Args,
}

// Reads a series, which "is cut at each comma" and begins at byte `from` of the step's text: 12 for an element that is no number,
// 13 for more than eight.
pub fn series(value: &[u8], from: usize) -> Numbers
    requires { from + length value.now ≤ 65535 }
    ensures { Reads value.now from result }
{
    let mut list = [0; 8];
    let mut whole = true;
    let mut n = 0;
    let mut at = 0;
    // Stays: the byte at which an element begins is told, and with an iterator over the elements it would be counted by hand all the same.
    while at <= value.len() {
        let e = byte_end(b',', value, at);
        let number = decimal(&value[at..e]);
        let Some(d) = number else {
            return Numbers {
                number: 12,
                at: from + at,
                whole: whole,
                args: Args { list: list, n: n },
            };
        };
        let x = signed(d.minus, d.whole as usize);
        if n < 8 {
            list[n] = x;
        }
        if d.millionths != 0 {
            whole = false;
        }
        n += 1;
        at = e + 1;
    }
    if 8 < n {
        return Numbers {
            number: 13,
            at: 0,
            whole: whole,
            args: Args { list: list, n: n },
        };
    }
    Numbers {
        number: 14,
        at: 0,
        whole: whole,
        args: Args { list: list, n: n },
    }
}
