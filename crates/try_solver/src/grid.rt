// A floor laid out on a grid of 130 places to a row, with blocked places all around it. A cell and its eight neighbours
// are nine places, three to a row: the first of them is the cell's corner, the middle one is the cell.
ghost use Rattle.std.specs.Prelude.{◌+◌, ◌*◌, ◌≤◌, ◌<◌};

use crate::ask::{MAP, Sides, Spot};
use crate::sizes::Steps;

// The byte of a spot's column in a row of the map; past its end, all blocked.
pub fn byte_at(map: &[u8; MAP], sides: Sides, spot: Spot) -> u8 {
    map.get(sides.byte_of(spot)).copied().unwrap_or(255)
}

// Whether the bit of a spot is set in the map.
pub fn is_set(map: &[u8; MAP], sides: Sides, spot: Spot) -> bool {
    byte_at(map, sides, spot) >> (spot.column % 8) & 1 == 1
}

// The headings, in the order in which they are tried.
#[derive(Clone, Copy, PartialEq, Eq)]
pub enum Heading {
    North,
    NorthEast,
    East,
    SouthEast,
    South,
    SouthWest,
    West,
    NorthWest,
}

impl Heading {
    pub const ALL: [Heading; 8] = [
        Heading::North,
        Heading::NorthEast,
        Heading::East,
        Heading::SouthEast,
        Heading::South,
        Heading::SouthWest,
        Heading::West,
        Heading::NorthWest,
    ];

    // The straight ones, and the diagonal ones.
    pub const STRAIGHT: [Heading; 4] = [
        Heading::North,
        Heading::East,
        Heading::South,
        Heading::West,
    ];

    pub const DIAGONAL: [Heading; 4] = [
        Heading::NorthEast,
        Heading::SouthEast,
        Heading::SouthWest,
        Heading::NorthWest,
    ];

    // How far to the right of the corner the head of a step lies.
    fn right(self) -> usize
        ensures { result ≤ 2 }
    {
        match self {
            Heading::NorthWest | Heading::West | Heading::SouthWest => 0,
            Heading::North | Heading::South => 1,
            Heading::NorthEast | Heading::East | Heading::SouthEast => 2,
        }
    }

    // How far down from the corner the head of a step lies.
    fn down(self) -> usize
        ensures { result ≤ 2 }
    {
        match self {
            Heading::NorthWest | Heading::North | Heading::NorthEast => 0,
            Heading::West | Heading::East => 1,
            Heading::SouthWest | Heading::South | Heading::SouthEast => 2,
        }
    }

    // The length of a step.
    pub fn step(self) -> Steps {
        match self {
            Heading::North | Heading::East | Heading::South | Heading::West => Steps::STRAIGHT,
            _ => Steps::DIAGONAL,
        }
    }
}

// How many places a row of the grid has, and how many the grid.
const STRIDE: usize = 130;

const PLACES: usize = STRIDE * STRIDE;

// A place of the grid.
#[derive(Clone, Copy)]
pub struct Place {
    n: usize,
    ghost on_grid: { n < 16900 },
}

// A cell, by its corner.
#[derive(Clone, Copy, PartialEq, Eq)]
pub struct Cell {
    corner: usize,
    ghost on_grid: { corner ≤ 16637 },
}

impl Cell {
    // The cell of a column and a row, which are below 128.
    pub fn new(column: usize, row: usize) -> Cell {
        Cell {
            corner: row % 128 * STRIDE + column % 128,
        }
    }

    // The cell of a spot on a floor.
    pub fn at(spot: Spot) -> Cell {
        Cell::new(spot.column, spot.row)
    }

    // The place so far to the right of the corner and down.
    fn place_at(self, right: usize, down: usize) -> Place
        requires { (right ≤ 2) × (down ≤ 2) }
    {
        Place {
            n: self.corner + down * STRIDE + right,
        }
    }

    // The cell's own place.
    pub fn place(self) -> Place {
        self.place_at(1, 1)
    }

    // The place of the head of a step.
    pub fn head(self, heading: Heading) -> Place {
        self.place_at(heading.right(), heading.down())
    }

    // The cell to which a step leads; the same cell at the grid's edge, where none leads.
    pub fn next(self, heading: Heading) -> Cell {
        match self.head(heading).n.checked_sub(STRIDE + 1) {
            Some(corner) if corner <= 16637 => Cell { corner },
            _ => self,
        }
    }
}

// The most cells of a floor: a way has fewer steps.
pub const CELLS: usize = 16384;

// The sides of a floor that is accepted.
#[derive(Clone, Copy)]
pub struct Floor {
    pub sides: Sides,
    ghost fits: { (0 < sides.width) × (sides.width ≤ 128) × (sides.height ≤ 128) },
}

impl Floor {
    // A floor of one cell.
    const LEAST: Floor = Floor {
        sides: Sides {
            width: 1,
            height: 1,
        },
    };

    // Sides from 1 to 128.
    pub fn new(sides: Sides) -> Option<Floor> {
        let Sides { width, height } = sides;
        if width < 1 || 128 < width || height < 1 || 128 < height {
            return None;
        }
        Some(Floor { sides })
    }

    // How many cells the floor has.
    pub fn cells(self) -> usize
        ensures { result ≤ 16384 }
    {
        self.sides.width * self.sides.height
    }

    // The n-th cell of the floor.
    pub fn cell(self, n: usize) -> Cell {
        Cell::new(n % self.sides.width, n / self.sides.width)
    }
}

// A value for each place of the grid.
#[derive(Drop)]
pub struct Board<T> {
    values: [T; PLACES],
}

impl<T: Copy> Board<T> {
    // The same value everywhere.
    pub fn new(value: T) -> Board<T> {
        Board {
            values: [value; PLACES],
        }
    }

    // Sets the places in a floor's rows and in those before and after them. With `fill` the proof does not close: it
    // asks for a clone that cannot fail.
    pub fn clear(&mut self, floor: Floor, value: T) {
        for place in &mut self.values[..(floor.sides.height + 2) * STRIDE] {
            *place = value;
        }
    }

    // The value of a place.
    pub fn at(&self, place: Place) -> T {
        self.values[place.n]
    }

    // Sets the value of a place.
    pub fn set(&mut self, place: Place, value: T) {
        self.values[place.n] = value;
    }
}

// A floor, and which places of the grid are open.
#[derive(Drop)]
pub struct Grid {
    pub floor: Floor,
    open: Board<bool>,
}

impl Grid {
    // A floor of one blocked cell.
    pub fn new() -> Grid {
        Grid {
            floor: Floor::LEAST,
            open: Board::new(false),
        }
    }

    // Lays a row out.
    fn lay_row(&mut self, row: usize, map: &[u8; MAP]) {
        let sides = self.floor.sides;
        for column in 0..sides.width {
            let spot = Spot { column, row };
            self.open
                .set(Cell::at(spot).place(), !is_set(map, sides, spot));
        }
    }

    // Lays a floor out.
    pub fn lay(&mut self, floor: Floor, map: &[u8; MAP]) {
        self.floor = floor;
        self.open.clear(floor, false);
        for row in 0..floor.sides.height {
            self.lay_row(row, map);
        }
    }

    // Whether a cell is open.
    pub fn is_open(&self, cell: Cell) -> bool {
        self.open.at(cell.place())
    }

    // Whether a step leads on from an open cell: its head is open, and so are the two places beside a diagonal one, in
    // the cell's own row and in its own column. Of a straight one these are its head and the cell.
    pub fn leads(&self, cell: Cell, heading: Heading) -> bool {
        self.open.at(cell.head(heading))
            && self.open.at(cell.place_at(heading.right(), 1))
            && self.open.at(cell.place_at(1, heading.down()))
    }
}
