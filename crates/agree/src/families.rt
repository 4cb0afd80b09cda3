// The families of floors on which calls are tried: every floor of some shapes, given ones, and floors that look random.
use crate::{bent, trial};
use try_calls::Bench;
use try_floors::floors;
use try_floors::floors::Pattern;
use try_floors::random::Random;
use try_solver::ask::Sides;

// Widths and heights of which every floor is tried: up to 3 by 3 cells, and longer ones.
const SHAPES: [(usize, usize); 16] = [
    (1, 1),
    (1, 2),
    (1, 3),
    (2, 1),
    (2, 2),
    (2, 3),
    (3, 1),
    (3, 2),
    (3, 3),
    (1, 8),
    (8, 1),
    (1, 9),
    (9, 1),
    (2, 5),
    (5, 2),
    (4, 3),
];

// Tries every floor of a shape, by the digits of its cells, of which no shape has 64.
fn try_shape(bench: &mut Bench, sides: Sides) {
    for digits in 0..1u64 << (sides.cells() % 64) {
        floors::lay(sides, Pattern::Digits(digits), Random(0), &mut bench.map);
        trial::try_every(bench, sides, Random(digits + 1).next());
    }
}

// Tries a fork of two ways of almost one length.
fn try_fork(bench: &mut Bench) {
    let sides = Sides {
        width: 103,
        height: 71,
    };
    floors::lay(sides, Pattern::Fork, Random(0), &mut bench.map);
    trial::try_given(bench, sides, 5150, 5149);
}

// Tries the largest floor, with one way that winds through all of it.
fn try_walls(bench: &mut Bench) {
    let sides = Sides {
        width: 128,
        height: 128,
    };
    floors::lay(sides, Pattern::Walls, Random(0), &mut bench.map);
    trial::try_given(bench, sides, 0, 16383);
}

// How large floors that look random are: up to 12, 40 or 128 cells to a side.
#[derive(Clone, Copy, PartialEq, Eq)]
enum Size {
    Small,
    Middle,
    Large,
}

impl Size {
    // A side around a multiple of 8; in the middle also around 19 rows, from which on the library takes more memory.
    fn edge(self, random: Random) -> usize {
        match self {
            Size::Small => 7 + random.below(3),
            Size::Middle => 15 + random.below(6),
            Size::Large => 63 + random.below(3),
        }
    }

    // A side.
    fn side(self, random: Random) -> usize {
        if random.next().below(4) == 0 {
            return self.edge(random);
        }
        match self {
            Size::Small => 1 + random.below(12),
            Size::Middle => 13 + random.below(28),
            Size::Large => 120 + random.below(9),
        }
    }
}

// How many of a hundred cells are blocked on a floor that looks random.
const DENSITIES: [usize; 9] = [0, 5, 15, 25, 30, 35, 40, 50, 65];

// One of the densities, or walls.
fn pattern_from(random: Random) -> Pattern {
    match DENSITIES.get(random.below(10)) {
        Some(hundredths) => Pattern::Density(*hundredths),
        None => Pattern::Walls,
    }
}

// Lays a floor that looks random, and tries it, and then bent calls on it, where the last byte of a row may have a bit
// set past the width: the number after it.
fn try_random(bench: &mut Bench, size: Size, seed: Random) -> Random {
    let sides = Sides {
        width: size.side(seed.later(1)),
        height: size.side(seed.later(2)),
    };
    let pattern = pattern_from(seed.later(3));
    let random = floors::lay(sides, pattern, seed.later(4), &mut bench.map).next();
    trial::try_some(bench, sides, random, size == Size::Large);
    floors::pad_some(&mut bench.map, sides.bytes(), random);
    bent::try_on(bench, sides, random);
    random
}

// Tries so many floors of a size that look random.
fn try_size(bench: &mut Bench, size: Size, count: usize, seed: Random) {
    let mut random = seed;
    for _ in 0..count {
        random = try_random(bench, size, random);
    }
}

// Tries every floor: those of the shapes, the given ones, and many small floors that look random and some larger ones.
pub fn try_all(bench: &mut Bench) {
    for (width, height) in SHAPES {
        try_shape(bench, Sides { width, height });
    }
    try_fork(bench);
    try_walls(bench);
    try_size(bench, Size::Small, 40000, Random(11));
    try_size(bench, Size::Middle, 400, Random(12));
    try_size(bench, Size::Large, 40, Random(13));
}
