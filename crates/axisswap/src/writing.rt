// Its text: the name, the key and the order.
ghost use Rattle.rules.specs.Text.Bytes.{joined};
ghost use Rattle.rules.specs.Operators.Descriptions.{Axisswap};
ghost use Rattle.rules.specs.Pipeline.Write.{operator_words};
ghost use Rattle.text.specs.Wrote.{WroteAt};
ghost use Rattle.numbers.specs.Parts.{Room};

use numbers::put_list;
use text::put;

pub fn write_words(l: &[i32], out: &mut [u8], o: usize) -> usize
    requires { Room (joined (operator_words Axisswap l.now)) o out.old }
    ensures { WroteAt (joined (operator_words Axisswap l.now)) out.old o result out.new }
{
    let e = put(b"axisswap order=", out, o);
    put_list(l, out, e)
}
