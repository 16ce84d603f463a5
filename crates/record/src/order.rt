// The order in which the steps of a table run.
ghost use Rattle.std.specs.Prelude.{◌≡◌, ◌<◌};
ghost use Rattle.record.specs.Visits.{visited};

use rules::Direction;

// The step that comes after i others of n, in running order.
#[tactic(auto, unfolding(crate::specs::Visits::visited))]
pub fn visited_of(direction: Direction, i: usize, n: usize) -> usize
    requires { i < n }
    ensures { (result ≡ visited direction i n) × (result < n) }
{
    match direction {
        Direction::Forward => i,
        Direction::Inverse => n - 1 - i,
    }
}
