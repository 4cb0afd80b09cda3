// The goal of a call, and the ends of a route, that have passed their tests: cells of an accepted floor.
ghost use Rattle.floor.specs.Floor.{map_of};
ghost use Rattle.floor.specs.inner.Ready.{OpenCell};

use floor::Floor;

// An accepted floor, and the goal's cell, which is open.
#[derive(Clone, Copy)]
pub struct Goal<'a> {
    pub floor: Floor<'a>,
    pub cell: usize,
    pub ghost chosen: { OpenCell (map_of floor.width floor.height floor.bytes.now) cell },
}

// A goal, and the start's cell, which is open.
#[derive(Clone, Copy)]
pub struct Ends<'a> {
    pub goal: Goal<'a>,
    pub start: usize,
    pub ghost begun: { OpenCell (map_of goal.floor.width goal.floor.height goal.floor.bytes.now) start },
}
