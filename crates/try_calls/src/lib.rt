// Calls made of the library and of the second solver, over the same numbers and buffers, compared in all that they say
// and leave, and counted.
//
// What calls leave stands in a table and a buffer of legs for each of the two. Both are overwritten before a call and
// compared after it, with a fault planted in what the library said or left where one is asked for. Nothing is promised
// of what is found, but that every function ends, with no index out of range and no number that wraps.
#![tactic(auto)]

pub mod alter;
pub mod fault;
mod fitting;
mod left;
mod library;
pub mod tally;

use alter::Alteration;
use fault::Fault;
use fitting::Fitting;
use left::Left;
use tally::{Line, Tally};
use try_floors::random::Random;
use try_solver::Solver;
use try_solver::ask::{Call, ENTRIES, MAP, ROOM, Refused, Said};

// What is asked of the two: a call, the line in which it is counted, and the fault that is planted, if one is.
#[derive(Clone, Copy)]
pub struct Trial {
    pub call: Call,
    pub line: Line,
    pub fault: Option<Fault>,
}

impl From<Call> for Trial {
    // A call that is counted with those of its kind, and no fault.
    fn from(call: Call) -> Trial {
        Trial {
            call,
            line: Line::from(call.kind),
            fault: None,
        }
    }
}

// How many legs a route's answer counts.
pub fn legs_of(said: Said) -> usize {
    match said {
        Ok(values) => values[2],
        Err(Refused { number: 10, place }) => place,
        Err(_) => 0,
    }
}

// What calls are made over: the map, the solver with its table and legs, the library's table and legs, and what was
// counted.
#[derive(Drop)]
pub struct Bench {
    pub map: [u8; MAP],
    solver: Solver,
    table: [u32; ENTRIES],
    legs: [u8; ROOM],
    pub tally: Tally,
}

impl Bench {
    // A bench on which nothing was tried.
    pub fn new() -> Bench {
        Bench {
            map: [0; MAP],
            solver: Solver::new(),
            table: [0; ENTRIES],
            legs: [0; ROOM],
            tally: Tally::new(),
        }
    }

    // Alters the solver's table on a floor of so many cells: checks, and routes that are read, are over it as it
    // stands.
    pub fn alter(&mut self, alteration: Alteration, cells: usize, random: Random) {
        alteration.apply(&mut self.solver.table, cells, random);
    }

    // Overwrites what a call is to leave.
    fn wipe(&mut self, left: Left) {
        self.table[..left.entries].fill(0xdeadbeef);
        self.solver.table[..left.entries].fill(0xdeadbeef);
        self.legs[..left.bytes].fill(0xaa);
        self.solver.legs[..left.bytes].fill(0xaa);
    }

    // Plants a fault in what the library left, if it goes there.
    fn spoil(&mut self, left: Left, fault: Option<Fault>) {
        match fault {
            Some(Fault::Entry) => fault::spoil(&mut self.table[..left.entries], |entry| entry ^ 1),
            Some(Fault::Leg) => fault::spoil(&mut self.legs[..left.bytes], |byte| byte ^ 1),
            _ => {}
        }
    }

    // Counts what was left: whether both left the same.
    fn is_left_same(&mut self, left: Left) -> bool {
        let entries = self.tally.compare(
            Line::Entries,
            &self.table[..left.entries],
            &self.solver.table[..left.entries],
        );
        let bytes = self.tally.compare(
            Line::LegBytes,
            &self.legs[..left.bytes],
            &self.solver.legs[..left.bytes],
        );
        entries && bytes
    }

    // Counts a call, and for a route its leg buffer.
    fn conclude(&mut self, trial: Trial, said: Said, is_same: bool) {
        self.tally.note_answer(said);
        self.tally.note_one(trial.line, is_same);
        if left::leaves_legs(trial.call.kind)
            && let Some(line) = Line::of_buffer(trial.call.room, legs_of(said))
        {
            self.tally.note_one(line, is_same);
        }
    }

    // Makes the call of a trial, if the buffers are long enough for it: what the solver said.
    pub fn attempt_trial(&mut self, trial: Trial) -> Option<Said> {
        let fitting = Fitting::new(trial.call)?;
        let left = Left::of(fitting);
        self.wipe(left);
        let said = library::answer(
            fitting,
            &self.map,
            &mut self.table,
            &self.solver.table,
            &mut self.legs,
        );
        let ours = trial.fault.map_or(said, |fault| fault.spoilt(said));
        let theirs = self.solver.answer(trial.call, &self.map);
        self.spoil(left, trial.fault);
        let is_same = self.is_left_same(left) && ours == theirs;
        self.conclude(trial, theirs, is_same);
        Some(theirs)
    }

    // Makes a call that is counted with those of its kind, with no fault.
    pub fn attempt(&mut self, call: Call) -> Option<Said> {
        self.attempt_trial(Trial::from(call))
    }
}
