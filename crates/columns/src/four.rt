// Four slots of a coordinate.
ghost use Rattle.columns.specs.Within.{Within};

// A slot for each of four numbers.
#[derive(Clone, Copy, Drop)]
pub struct Slots {
    pub at: [usize; 4],
    ghost within: { Within at },
}
