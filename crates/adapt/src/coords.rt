// `adapt` on numbers: every coordinate of a list is read as a `Coord`, goes through it by value, and is put back.
ghost use Rattle.std.specs.Prelude.{◌≡◌, true, map};
ghost use Rattle.rules.specs.Operators.Adapt.{is_adapt, adapted};
ghost use Rattle.rules.specs.Operators.Documented.{is_documented, adapted_by_axis, is_adapt_in, adapted_in};
ghost use Rattle.rules.specs.Pipeline.Tuples.{tuples};
ghost use Rattle.adapt.specs.Factors.{scaled_by, scaled_if, factors_for, factors_by_axis};

use crate::factors::{is_noop, mults_of, overs_of};
use columns::{Slots, each_coord, pick, place, slots_of};
use rules::{Coord, Mode};

// Each number of a coordinate times its factor.
fn scaled_by(m: Coord, c: Coord) -> Coord
    ensures { result ≡ scaled_by m c }
{
    Coord {
        a: c.a * m.a,
        b: c.b * m.b,
        c: c.c * m.c,
        d: c.d * m.d,
    }
}

// One coordinate: forward, output i is the number at slot i times factor i; back, number i times factor i goes to slot i.
fn scaled(c: Coord, back: bool, o: Slots, m: Coord) -> Coord
    ensures { result ≡ scaled_if back o.at m c }
{
    if back {
        return place(c, o, scaled_by(m, c));
    }
    scaled_by(m, pick(c, o))
}

// The factors of a direction: back, that of a number is 1 over that of its place.
fn factors_for(back: bool, o: Slots, m: Coord) -> Coord
    ensures { result ≡ factors_for back o.at m }
{
    if back {
        return pick(overs_of(m), o);
    }
    m
}

// The factors of a direction in the documented mode: back, that of a number is 1 over its own.
fn factors_by_axis(back: bool, m: Coord) -> Coord
    ensures { result ≡ factors_by_axis back m }
{
    if back {
        return overs_of(m);
    }
    m
}

// Every coordinate of a list, by slots and factors that are made once.
fn scale_all(xs: &mut [f64], back: bool, o: Slots, f: Coord)
    ensures { tuples xs.new ≡ map (scaled_if back o.at f) (tuples xs.old) }
{
    each_coord(xs, |c| scaled(c, back, o, f));
}

// In the crate's mode. A no-op touches nothing.
fn adapt_crate(xs: &mut [f64], back: bool, args: [i32; 8])
    requires { is_adapt args ≡ true }
    ensures { tuples xs.new ≡ map (adapted back args) (tuples xs.old) }
{
    let o = slots_of(&args[..4]);
    let m = mults_of(args);
    let [first, second, third, fourth] = o.at;
    if is_noop(first + 1, second + 1, third + 1, fourth + 1, m) {
        return;
    }
    scale_all(xs, back, o, factors_for(back, o, m));
}

// In the documented mode.
fn adapt_by_axis(xs: &mut [f64], back: bool, args: [i32; 8])
    requires { is_documented args ≡ true }
    ensures { tuples xs.new ≡ map (adapted_by_axis back args) (tuples xs.old) }
{
    let o = slots_of(&args[..4]);
    let m = mults_of(args);
    scale_all(xs, back, o, factors_by_axis(back, m));
}

// Every coordinate of a list, in a mode.
pub fn adapt(xs: &mut [f64], mode: Mode, back: bool, args: [i32; 8])
    requires { is_adapt_in mode args ≡ true }
    ensures { tuples xs.new ≡ map (adapted_in mode back args) (tuples xs.old) }
{
    match mode {
        Mode::Crate => adapt_crate(xs, back, args),
        Mode::Documented => adapt_by_axis(xs, back, args),
    }
}
