// A second solver for the trials: what docs/REFERENCE.md asks of tables, routes, rooms, lengths and refusals, found
// again in plain other ways.
//
// It shares no code, no table and no definition with the library, and it says nothing of its answers but that they
// come: every function is proved to end, with no index out of range and no number that wraps.
#![tactic(auto)]

pub mod ask;
mod faults;
mod grid;
mod hall;
mod judge;
mod reach;
pub mod sizes;
mod trail;

use ask::{Call, ENTRIES, Kind, MAP, ROOM, Refused, Said, VALUES};
use grid::{Cell, Grid};
use reach::Lengths;
use trail::{Legs, Ways};

// The solver: the table and the legs that calls leave, of which the table may be written between calls, and its own
// memory: the floor, the lengths from the start and those to the goal, and the legs as they come.
#[derive(Drop)]
pub struct Solver {
    pub table: [u32; ENTRIES],
    pub legs: [u8; ROOM],
    grid: Grid,
    behind: Lengths,
    ahead: Lengths,
    draft: Legs,
}

impl Solver {
    // A solver that was asked nothing.
    pub fn new() -> Solver {
        Solver {
            table: [0; ENTRIES],
            legs: [0; ROOM],
            grid: Grid::new(),
            behind: Lengths::new(None),
            ahead: Lengths::new(None),
            draft: Legs::new(),
        }
    }

    // What a call says, with its table and its legs left in the solver.
    pub fn answer(&mut self, call: Call, map: &[u8; MAP]) -> Said {
        match call.kind {
            Kind::Comparisons => sizes::compare(call.length, call.other),
            Kind::Distances => sizes::distance(call.length, call.size),
            _ => {
                let floor = faults::of_call(call, map)?;
                self.grid.lay(floor, map);
                self.on_floor(call)
            }
        }
    }

    // What a call on a floor says that is not refused by 1 to 8. Finding a route leaves the table filled when it is
    // refused, too; reading one only reads the table.
    fn on_floor(&mut self, call: Call) -> Said {
        let goal = Cell::at(call.goal);
        match call.kind {
            Kind::Rooms => Ok(hall::room(&self.grid, call.start)),
            Kind::Tables => {
                self.fill(goal);
                Ok([0; VALUES])
            }
            Kind::Checks => {
                self.check(goal)?;
                Ok([0; VALUES])
            }
            Kind::FoundRoutes => {
                self.fill(goal);
                self.way(call)
            }
            Kind::ReadRoutes => {
                self.check(goal)?;
                self.ahead.spread(&self.grid, goal);
                self.way(call)
            }
            Kind::Floors | Kind::Comparisons | Kind::Distances => Ok([
                call.sides.width,
                call.sides.height,
                0,
                0,
            ]),
        }
    }

    // Fills the table with the lengths to a goal.
    fn fill(&mut self, goal: Cell) {
        self.ahead.spread(&self.grid, goal);
        self.ahead.write(self.grid.floor, &mut self.table);
    }

    // Checks the table for a goal: 11 with the first cell that differs.
    fn check(&mut self, goal: Cell) -> Result<(), Refused> {
        let table = &self.table[..self.grid.floor.cells()];
        match judge::first_wrong(&self.grid, table, goal, &mut self.ahead) {
            Some(place) => Err(Refused { number: 11, place }),
            None => Ok(()),
        }
    }

    // The first shortest way between two cells, from the lengths ahead, with its legs written: 9, 10.
    fn way(&mut self, call: Call) -> Said {
        let start = Cell::at(call.start);
        let whole = self.ahead.at(start.place()).ok_or(Refused::numbered(9))?;
        self.behind.spread(&self.grid, start);
        Ways {
            grid: &self.grid,
            behind: &self.behind,
            ahead: &self.ahead,
            whole,
        }
        .follow(start, &mut self.draft);
        let legs = self.draft.written().as_flattened();
        let count = legs.len() / 2;
        if call.room < legs.len() {
            return Err(Refused {
                number: 10,
                place: count,
            });
        }
        let buffer = &mut self.legs[..];
        buffer[..legs.len()].copy_from_slice(legs);
        Ok([
            usize::from(whole.straight),
            usize::from(whole.diagonal),
            count,
            0,
        ])
    }
}
