// The first shortest way. A step lies on a shortest way exactly if the length from the start to its foot, the step, and
// the length from its head to the goal make the whole length; at each cell the headings are tried in their order, and
// the legs are written as they come.
ghost use Rattle.std.specs.Prelude.{◌≡◌, ◌≤◌, length};

use crate::ask::ROOM;
use crate::grid::{CELLS, Cell, Grid, Heading};
use crate::reach::Lengths;
use crate::sizes::Steps;

// How many legs there is room for: half as many as a buffer has bytes.
const LEGS: usize = ROOM / 2;

// The legs of a way as they come, each of two bytes: the number of its heading, and how many steps it has. There is no
// heap, so room for the most legs is kept, with the count of those that are written.
#[derive(Drop)]
pub struct Legs {
    legs: [[u8; 2]; LEGS],
    count: usize,
    ghost in_room: { count ≤ 16500 },
}

impl Legs {
    // No legs.
    pub fn new() -> Legs {
        Legs {
            legs: [[0; 2]; LEGS],
            count: 0,
        }
    }

    // The legs that were written.
    pub fn written(&self) -> &[[u8; 2]]
        ensures { length result.now ≡ self.now.count }
    {
        &self.legs[..self.count]
    }

    // Takes every leg back.
    fn clear(&mut self) {
        self.count = 0;
    }

    // Goes on by a step: in the last leg, or in a new one.
    fn go(&mut self, heading: Heading) {
        let heading = heading as u8;
        match self.written().last() {
            Some([last, steps]) if *last == heading => {
                self.legs[self.count - 1] = [heading, steps.saturating_add(1)];
            }
            _ => self.begin(heading),
        }
    }

    // Begins a leg, where there is room.
    fn begin(&mut self, heading: u8) {
        if self.count < LEGS {
            self.legs[self.count] = [heading, 1];
            self.count += 1;
        }
    }
}

// A floor with the lengths from a start and those to a goal, and the whole length between the two.
#[derive(Clone, Copy)]
pub struct Ways<'a> {
    pub grid: &'a Grid,
    pub behind: &'a Lengths,
    pub ahead: &'a Lengths,
    pub whole: Steps,
}

impl Ways<'_> {
    // Whether a step from a cell lies on a shortest way.
    fn has(&self, cell: Cell, heading: Heading) -> bool {
        match (
            self.behind.at(cell.place()),
            self.ahead.over(self.grid, cell, heading),
        ) {
            (Some(behind), Some(ahead)) => behind.plus(ahead) == self.whole,
            _ => false,
        }
    }

    // The first heading whose step from a cell lies on a shortest way, if there is one.
    fn first(&self, cell: Cell) -> Option<Heading> {
        Heading::ALL
            .iter()
            .copied()
            .find(|heading| self.has(cell, *heading))
    }

    // Writes the legs of the first shortest way.
    pub fn follow(&self, start: Cell, legs: &mut Legs) {
        let mut cell = start;
        legs.clear();
        for _ in 0..CELLS {
            let Some(heading) = self.first(cell) else {
                return;
            };
            legs.go(heading);
            cell = cell.next(heading);
        }
    }
}
