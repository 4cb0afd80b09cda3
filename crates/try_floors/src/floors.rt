// Maps of floors to try: any small floor, by the binary digits of a number, floors that look random, and given ones.
use crate::random::Random;
use try_solver::ask;
use try_solver::ask::{MAP, Sides, Spot};

// Which cells of a floor are blocked.
#[derive(Clone, Copy, PartialEq, Eq)]
pub enum Pattern {
    // So many of a hundred, by numbers that look random.
    Density(usize),
    // Walls with a gap at their ends by turns.
    Walls,
    // By the binary digits of a number, row by row.
    Digits(u64),
    // 103 wide and 71 high, a fork: from (0, 50) to (102, 49) lead a way of 143 straight steps, through lanes of one
    // cell, and a way of 99 diagonal steps and 3 straight ones, through lanes of three. The first is shorter, by less
    // than a hundredth of a step.
    Fork,
}

// Whether a cell of the fork is open.
fn on_fork(spot: Spot) -> bool {
    let Spot { column, row } = spot;
    match column {
        _ if row == 70 => true,
        0 => 49 <= row,
        102 => 48 <= row,
        1..=50 => row.abs_diff(50 - column) <= 1,
        51 | 52 => row == 0,
        _ => row.abs_diff(column - 53) <= 1,
    }
}

// Whether a cell has a wall.
fn on_wall(width: usize, spot: Spot) -> bool {
    match spot.row % 4 {
        1 => spot.column != 0,
        3 => spot.column != width.saturating_sub(1),
        _ => false,
    }
}

impl Pattern {
    // Whether a cell of a floor is blocked.
    fn blocks(self, width: usize, spot: Spot, random: Random) -> bool {
        match self {
            Pattern::Density(hundredths) => random.below(100) < hundredths,
            Pattern::Walls => on_wall(width, spot),
            Pattern::Digits(digits) => {
                let n = ask::times(spot.row, width).saturating_add(spot.column);
                n < 64 && digits >> n & 1 == 1
            }
            Pattern::Fork => !on_fork(spot),
        }
    }
}

// Sets the bit of a column in a byte of the map, if the map has it.
fn block(map: &mut [u8; MAP], at: usize, column: usize) {
    if let Some(byte) = map.get_mut(at) {
        *byte |= 1 << (column % 8);
    }
}

// Sets the last bit of one of so many bytes of the map, for one seed in four: past the width, where the byte ends a row
// that ends before it.
pub fn pad_some(map: &mut [u8; MAP], bytes: usize, seed: Random) {
    if seed.below(4) == 0 {
        block(map, seed.next().pick(bytes), 7);
    }
}

// Lays a row: the number after it.
fn lay_row(
    sides: Sides,
    row: usize,
    pattern: Pattern,
    seed: Random,
    map: &mut [u8; MAP],
) -> Random {
    let mut random = seed;
    for column in 0..sides.width {
        let spot = Spot { column, row };
        if pattern.blocks(sides.width, spot, random) {
            block(map, sides.byte_of(spot), column);
        }
        random = random.next();
    }
    random
}

// Lays a floor, whose sides are 0 where they are above 128: the number after it.
pub fn lay(sides: Sides, pattern: Pattern, seed: Random, map: &mut [u8; MAP]) -> Random {
    let sides = sides.within_limits();
    let mut random = seed;
    map.fill(0);
    for row in 0..sides.height {
        random = lay_row(sides, row, pattern, random, map);
    }
    random
}
