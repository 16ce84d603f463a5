// What a check moves instead of numbers.
use rules::Place;

// Four places, and up to 64 columns of them: the top one at `top`, the others behind it, to the end of the array.
#[derive(Clone, Copy, Drop)]
pub struct Traced {
    pub tuple: [Place; 4],
    pub columns: [Place; 64],
    pub top: usize,
}
