// A word of `adapt` as it is read.
ghost use Rattle.std.specs.Prelude.{◌≡◌, true, length};
ghost use Rattle.rules.specs.Operators.Arguments.{is_order};

// What the numbers of a word's first two axes are in: its number stands in the codes of arguments.
#[derive(Clone, Copy, PartialEq, Eq, Drop)]
pub enum Angle {
    Radians,
    Degrees,
    Gons,
}

// A word of `adapt`: four axes with their signs, each once, and an angle.
#[derive(Clone, Copy, Drop)]
pub struct Word {
    pub axes: [i32; 4],
    pub angle: Angle,
    pub ghost four: { length axes ≡ 4 },
    pub ghost ordered: { is_order axes ≡ true },
}
