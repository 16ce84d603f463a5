// The test of their arguments: used where a record is tested.
ghost use Rattle.std.specs.Prelude.{◌≡◌};
ghost use Rattle.rules.specs.Operators.PushPop.{is_rising};

use numbers::{Kind, is_of, size_of};

// Places 1 to 4 that rise.
pub fn is_rising(l: &[i32]) -> bool
    ensures { result ≡ is_rising 0 l.now }
{
    let mut last = 0;
    for x in l {
        if !is_of(Kind::Place, *x) {
            return false;
        }
        let m = size_of(*x);
        if m <= last {
            return false;
        }
        last = m;
    }
    true
}
