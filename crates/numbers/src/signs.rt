// The sign and the size of a number.
ghost use Rattle.std.specs.Prelude.{◌≡◌, true, ◌<◌, ◌≤◌, suc};
ghost use Rattle.rules.specs.Text.Decimal.{signed, minus};
ghost use Rattle.rules.specs.Operators.Arguments.{size};
ghost use Rattle.numbers.specs.Axes.{is_axis};

// Is x below zero?
pub fn is_minus(x: i32) -> bool
    ensures { result ≡ minus x }
{
    x < 0
}

// The size of x, without its sign.
pub fn size_of(x: i32) -> usize
    ensures { result ≡ size x }
{
    x.unsigned_abs() as usize
}

// The place, counted from 0, that an argument names.
pub fn axis_of(x: i32) -> usize
    requires { is_axis x ≡ true }
    ensures below { result < 4 }
    ensures named { size x ≡ suc result }
{
    size_of(x) - 1
}

// The whole number of that sign and size, of nine digits at most.
pub fn signed(minus: bool, size: usize) -> i32
    requires { size ≤ 999999999 }
    ensures { result ≡ signed minus size }
{
    let n = size as i32;
    if minus { -n } else { n }
}
