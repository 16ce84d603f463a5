// `axisswap` on numbers: every coordinate of a list is read as a `Coord`, goes through it by value, and is put back.
ghost use Rattle.std.specs.Prelude.{◌≡◌, true, map};
ghost use Rattle.rules.specs.Operators.Arguments.{is_order};
ghost use Rattle.rules.specs.Operators.Axisswap.{swapped};
ghost use Rattle.rules.specs.Pipeline.Tuples.{tuples};
ghost use Rattle.axisswap.specs.Signs.{turn_at, turns_of, turned_by, ordered, unordered, ordered_by};

use columns::{Slots, each_coord, pick, place, slots_of, turned};
use numbers::is_minus;
use rules::Coord;

// Is argument i of an order, counted from 0, below zero? Past the arguments the sign stays.
fn turn_at(args: &[i32], i: usize) -> bool
    ensures { result ≡ turn_at args.now i }
{
    match args.get(i) {
        Some(x) => is_minus(*x),
        None => false,
    }
}

// For each of the four numbers of an order: is its sign turned?
fn turns_of(args: &[i32]) -> [bool; 4]
    ensures { result ≡ turns_of args.now }
{
    [
        turn_at(args, 0),
        turn_at(args, 1),
        turn_at(args, 2),
        turn_at(args, 3),
    ]
}

// A coordinate with these signs turned.
fn turned_by(t: [bool; 4], c: Coord) -> Coord
    ensures { result ≡ turned_by t c }
{
    Coord {
        a: turned(t[0], c.a),
        b: turned(t[1], c.b),
        c: turned(t[2], c.c),
        d: turned(t[3], c.d),
    }
}

// Forward: output i is the number at slot i, with its sign.
fn forward(c: Coord, o: Slots, t: [bool; 4]) -> Coord
    ensures { result ≡ ordered o.at t c }
{
    turned_by(t, pick(c, o))
}

// Inverse: number i goes to slot i, with its sign.
fn inverse(c: Coord, o: Slots, t: [bool; 4]) -> Coord
    ensures { result ≡ unordered o.at t c }
{
    place(c, o, turned_by(t, c))
}

// One coordinate, forward or back.
fn swapped(c: Coord, back: bool, o: Slots, t: [bool; 4]) -> Coord
    ensures { result ≡ ordered_by back o.at t c }
{
    if back {
        inverse(c, o, t)
    } else {
        forward(c, o, t)
    }
}

// Every coordinate of a list: the slots and signs are made once.
pub fn axisswap(xs: &mut [f64], back: bool, args: &[i32])
    requires { is_order args.now ≡ true }
    ensures { tuples xs.new ≡ map (swapped back args.now) (tuples xs.old) }
{
    let o = slots_of(args);
    let t = turns_of(args);
    each_coord(xs, |c| swapped(c, back, o, t));
}
