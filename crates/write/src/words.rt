// The text of one record: the operator's words, and the marks.
ghost use Rattle.std.specs.Prelude.{◌≡◌, true};
ghost use Rattle.rules.specs.Text.Bytes.{joined};
ghost use Rattle.rules.specs.Operators.Table.{operator_of, is_args};
ghost use Rattle.rules.specs.Pipeline.Record.{made};
ghost use Rattle.rules.specs.Pipeline.Write.{operator_words, writing};
ghost use Rattle.text.specs.Wrote.{WroteAt};
ghost use Rattle.numbers.specs.Parts.{Room};
ghost use Rattle.write.specs.Parts.{marked, mark_text};

use rules::{AXISSWAP, DOCUMENTED, POP, PUSH, STACK_DROP, STACK_PUSH, Step};
use text::put;

// The operator's name and arguments, which the operator itself writes.
fn words(operator: u8, l: &[i32], out: &mut [u8], o: usize) -> usize
    requires l_value { is_args (operator_of operator) l.now ≡ true }
    requires room { Room (joined (operator_words (operator_of operator) l.now)) o out.old }
    ensures { WroteAt (joined (operator_words (operator_of operator) l.now)) out.old o result out.new }
{
    match operator {
        PUSH | POP => pushpop::write_words(operator, l, out, o),
        STACK_PUSH..=STACK_DROP => stack::write_words(operator, l, out, o),
        AXISSWAP => axisswap::write_words(l, out, o),
        DOCUMENTED => adapt::write_documented(l, out, o),
        _ => adapt::write_words(l, out, o),
    }
}

// A mark's word, if the mark is set.
fn marked(word: &[u8], mark: u8, out: &mut [u8], o: usize) -> usize
    requires { Room (marked word.now mark) o out.old }
    ensures { WroteAt (marked word.now mark) out.old o result out.new }
{
    if mark == 1 {
        return put(word, out, o);
    }
    o
}

// The marks that are set, each after a space.
fn marks(inv: u8, fwd: u8, back: u8, out: &mut [u8], o: usize) -> usize
    requires { Room (mark_text inv fwd back) o out.old }
    ensures { WroteAt (mark_text inv fwd back) out.old o result out.new }
{
    let a = marked(b" inv", inv, out, o);
    let e = marked(b" omit_fwd", fwd, out, a);
    marked(b" omit_inv", back, out, e)
}

// The text of a record.
pub fn step(s: Step, out: &mut [u8], o: usize) -> usize
    requires s_value { made s ≡ true }
    requires room { Room (writing s) o out.old }
    ensures { WroteAt (writing s) out.old o result out.new }
{
    let l = s.args;
    let n = s.n as usize;
    let e = words(s.operator, &l[..n], out, o);
    marks(s.inv, s.omit_fwd, s.omit_inv, out, e)
}
