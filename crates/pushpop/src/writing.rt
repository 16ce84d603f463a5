// Their text: the name and the flags.
ghost use Rattle.std.specs.Prelude.{◌≡◌, true, [], ◌∷◌, map, ◌≤◌};
ghost use Rattle.rules.specs.Text.Lists.{all_of};
ghost use Rattle.rules.specs.Text.Bytes.{after_each, joined};
ghost use Rattle.rules.specs.Operators.Arguments.{is_place};
ghost use Rattle.text.specs.Wrote.{WroteAt};
ghost use Rattle.rules.specs.Operators.PushPop.{is_rising, flag_of};
ghost use Rattle.rules.specs.Operators.Table.{operator_of};
ghost use Rattle.rules.specs.Pipeline.Write.{name_word, operator_words};
ghost use Rattle.numbers.specs.Parts.{Room};

use numbers::{put_byte, size_of};
use rules::PUSH;
use text::put;

// The flags of the axes in l, each after a space.
fn flags(l: &[i32], out: &mut [u8], o: usize) -> usize
    requires l_value { all_of is_place l.now ≡ true }
    requires room { Room (after_each (32 ∷ []) (map flag_of l.now)) o out.old }
    ensures { WroteAt (after_each (32 ∷ []) (map flag_of l.now)) out.old o result out.new }
{
    let mut e = o;
    for x in l {
        e = flag(*x, out, e);
    }
    e
}

// One flag, after a space.
fn flag(x: i32, out: &mut [u8], o: usize) -> usize
    requires x_value { is_place x ≡ true }
    requires room { Room (32 ∷ flag_of x) o out.old }
    ensures { WroteAt (32 ∷ flag_of x) out.old o result out.new }
{
    let e = put(b" v_", out, o);
    put_byte(48 + size_of(x) as u8, out, e)
}

// The operator's name.
// Stays: the number of the operator stands in a record, which C fills.
fn name(operator: u8, out: &mut [u8], o: usize) -> usize
    requires operator_bound { operator ≤ 1 }
    requires room { Room (name_word (operator_of operator)) o out.old }
    ensures { WroteAt (name_word (operator_of operator)) out.old o result out.new }
{
    if operator == PUSH {
        put(b"push", out, o)
    } else {
        put(b"pop", out, o)
    }
}

// The name, and the flag of each place.
pub fn write_words(operator: u8, l: &[i32], out: &mut [u8], o: usize) -> usize
    requires operator_bound { operator ≤ 1 }
    requires l_value { is_rising 0 l.now ≡ true }
    requires room { Room (joined (operator_words (operator_of operator) l.now)) o out.old }
    ensures { WroteAt (joined (operator_words (operator_of operator) l.now)) out.old o result out.new }
{
    let e = name(operator, out, o);
    flags(l, out, e)
}
