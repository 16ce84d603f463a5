// Its text: the name, the action and the arguments.
ghost use Rattle.std.specs.Prelude.{◌≡◌, true, ◌≤◌};
ghost use Rattle.rules.specs.Text.Bytes.{joined};
ghost use Rattle.rules.specs.Operators.Table.{operator_of, is_args};
ghost use Rattle.rules.specs.Pipeline.Write.{operator_words};
ghost use Rattle.text.specs.Wrote.{WroteAt};
ghost use Rattle.numbers.specs.Parts.{Room};
ghost use Rattle.stack.specs.Text.{action_text};

use numbers::put_list;
use rules::{STACK_FLIP, STACK_POP, STACK_PUSH, STACK_ROLL, STACK_SWAP, STACK_UNROLL};
use text::put;

// The name and the action, up to its arguments.
// Stays: the number of the operator stands in a record, which C fills.
fn action(operator: u8, out: &mut [u8], o: usize) -> usize
    requires le_operator { (2 ≤ operator) × (operator ≤ 8) }
    requires room { Room (action_text (operator_of operator)) o out.old }
    ensures { WroteAt (action_text (operator_of operator)) out.old o result out.new }
{
    match operator {
        STACK_PUSH => put(b"stack push=", out, o),
        STACK_POP => put(b"stack pop=", out, o),
        STACK_FLIP => put(b"stack flip=", out, o),
        STACK_ROLL => put(b"stack roll=", out, o),
        STACK_UNROLL => put(b"stack unroll=", out, o),
        STACK_SWAP => put(b"stack swap", out, o),
        _ => put(b"stack drop", out, o),
    }
}

// The whole: `swap` and `drop` have no arguments.
pub fn write_words(operator: u8, l: &[i32], out: &mut [u8], o: usize) -> usize
    requires le_operator { (2 ≤ operator) × (operator ≤ 8) }
    requires l_value { is_args (operator_of operator) l.now ≡ true }
    requires room { Room (joined (operator_words (operator_of operator) l.now)) o out.old }
    ensures { WroteAt (joined (operator_words (operator_of operator) l.now)) out.old o result out.new }
{
    let e = action(operator, out, o);
    put_list(l, out, e)
}
