// Four numbers of a coordinate at once, by their slots. Places count from 1, slots from 0.
ghost use Rattle.std.specs.Prelude.{◌≡◌, ◌<◌};
ghost use Rattle.columns.specs.Coords.{slot, slot_at, slots_of, picked, placed};

use crate::four::Slots;
use numbers::size_of;
use rules::Coord;

// Where number i of a coordinate stands in it, counted from 0.
fn slot_of(i: usize) -> usize
    ensures below { result < 4 }
    ensures named { result ≡ slot i }
{
    match i {
        1 => 0,
        2 => 1,
        3 => 2,
        _ => 3,
    }
}

// The slot of argument i of an order, counted from 0; past the arguments the number stays.
fn slot_at(args: &[i32], i: usize) -> usize
    requires { i < 4 }
    ensures below { result < 4 }
    ensures named { result ≡ slot_at args.now i }
{
    match args.get(i) {
        Some(x) => slot_of(size_of(*x)),
        None => i,
    }
}

// The slots of the four arguments.
pub fn slots_of(args: &[i32]) -> Slots
    ensures { result.at ≡ slots_of args.now }
{
    let at = [
        slot_at(args, 0),
        slot_at(args, 1),
        slot_at(args, 2),
        slot_at(args, 3),
    ];
    Slots { at }
}

// The four numbers at given slots.
pub fn pick(c: Coord, o: Slots) -> Coord
    ensures { result ≡ picked o.at c }
{
    let v = [c.a, c.b, c.c, c.d];
    let [first, second, third, fourth] = o.at;
    Coord {
        a: v[first],
        b: v[second],
        c: v[third],
        d: v[fourth],
    }
}

// The coordinate with the numbers of v at given slots, one stored after the other.
pub fn place(c: Coord, o: Slots, v: Coord) -> Coord
    ensures { result ≡ placed o.at v c }
{
    let mut r = [c.a, c.b, c.c, c.d];
    let [first, second, third, fourth] = o.at;
    r[first] = v.a;
    r[second] = v.b;
    r[third] = v.c;
    r[fourth] = v.d;
    Coord {
        a: r[0],
        b: r[1],
        c: r[2],
        d: r[3],
    }
}
