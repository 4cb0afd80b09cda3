// Comparisons of lengths, and distances.
use crate::trial;
use try_calls::Bench;
use try_floors::random::Random;
use try_solver::ask::{Call, Kind, Length, Sides};
use try_solver::sizes;

// So many straight steps, and so many diagonal ones.
fn length_of(straight: u32, diagonal: u32) -> Length {
    Length { straight, diagonal }
}

// A call that has no floor.
fn off_floor(kind: Kind) -> Call {
    let sides = Sides {
        width: 0,
        height: 0,
    };
    Call {
        kind,
        ..trial::on_floor(sides)
    }
}

// Tries a comparison of two lengths.
fn try_compared(bench: &mut Bench, length: Length, other: Length) {
    bench.attempt(Call {
        length,
        other,
        ..off_floor(Kind::Comparisons)
    });
}

// Tries a distance.
fn try_distance(bench: &mut Bench, size: u32, length: Length) {
    bench.attempt(Call {
        size,
        length,
        ..off_floor(Kind::Distances)
    });
}

// Tries the distance of a route of so many straight and diagonal steps, at a cell size that they give.
pub fn try_spoken(bench: &mut Bench, straight: usize, diagonal: usize) {
    let straight = (straight % 16384) as u32;
    let diagonal = (diagonal % 16384) as u32;
    let size = 1 + (31 * straight + 17 * diagonal) % 1000;
    try_distance(bench, size, length_of(straight, diagonal));
}

// Tries every two lengths with parts up to 12.
fn try_small(bench: &mut Bench) {
    for n in 0..28561 {
        let length = length_of(n % 13, n / 13 % 13);
        let other = length_of(n / 169 % 13, n / 2197);
        try_compared(bench, length, other);
    }
}

// Tries each count of diagonal steps with the nearest count of straight ones and with one more, both ways round.
fn try_near(bench: &mut Bench) {
    for diagonal in 1..16385 {
        let nearest = sizes::nearest_to(diagonal);
        let aslant = length_of(0, diagonal);
        let near = length_of(nearest, 0);
        let next = length_of(nearest + 1, 0);
        try_compared(bench, near, aslant);
        try_compared(bench, next, aslant);
        try_compared(bench, aslant, near);
        try_compared(bench, aslant, next);
    }
}

// Tries the distance of each count of diagonal steps, at several cell sizes.
fn try_diagonals(bench: &mut Bench) {
    for diagonal in 0..16385 {
        try_distance(bench, 1, length_of(0, diagonal));
        try_distance(bench, 50, length_of(7, diagonal));
        try_distance(bench, 99, length_of(0, diagonal));
        try_distance(bench, 997, length_of(16383, diagonal));
        try_distance(bench, 1000, length_of(16383, diagonal));
    }
}

// A part of a length, from a number: small ones, ones around the limit, and any.
fn part_from(random: Random) -> u32 {
    let part = random.next().below(16384) as u32;
    match random.below(8) {
        0 => part % 13,
        1 => 16380 + part % 6,
        2 => u32::MAX - part,
        _ => part,
    }
}

// A cell size, from a number: around its limits, and any.
fn size_from(random: Random) -> u32 {
    let size = random.next().below(1000) as u32;
    match random.below(8) {
        0 => size % 3,
        1 => 999 + size % 3,
        2 => u32::MAX - size,
        _ => size + 1,
    }
}

// Tries lengths that look random, compared with others and spoken.
fn try_any(bench: &mut Bench, random: Random) {
    let straight = part_from(random);
    let diagonal = part_from(random.later(2));
    let other = part_from(random.later(4));
    let length = length_of(straight, diagonal);
    try_compared(bench, length, length_of(other, diagonal));
    try_compared(bench, length, length_of(diagonal, other));
    try_distance(bench, size_from(random.later(6)), length);
}

// Tries every set of lengths.
pub fn try_all(bench: &mut Bench) {
    try_small(bench);
    try_near(bench);
    try_diagonals(bench);
    let mut random = Random(7);
    for _ in 0..100000 {
        try_any(bench, random);
        random = random.later(9);
    }
}
