// The field DIR.
use rules::Direction;

// `fwd` or `inv`.
pub fn read_direction(field: &[u8]) -> Option<Direction> {
    match field {
        b"fwd" => Some(Direction::Forward),
        b"inv" => Some(Direction::Inverse),
        _ => None,
    }
}
