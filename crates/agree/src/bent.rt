// Calls that are to be refused, with numbers, lengths and places bent out of what they may be, one or several at a
// time.
use crate::trial;
use try_calls::tally::Line;
use try_calls::{Bench, Trial};
use try_floors::random::Random;
use try_solver::ask::{Call, Kind, Sides, Spot};

// A side bent, or as it is.
fn bent_side(side: usize, random: Random) -> usize {
    match random.below(24) {
        0 => 0,
        1 => 129,
        2 => usize::MAX,
        _ => side,
    }
}

// A length bent, or as it is: none, one more, or one less.
fn bent_length(length: usize, random: Random) -> usize {
    match random.below(16) {
        0 => 0,
        1 => length % 20000 + 1,
        2 => length.saturating_sub(1),
        _ => length,
    }
}

// A column or a row bent off its side, or as it is.
fn bent_place(place: usize, side: usize, random: Random) -> usize {
    match random.below(12) {
        0 => side,
        1 => 128,
        2 => usize::MAX,
        _ => place,
    }
}

// A spot bent off the floor, or as it is.
fn bent_spot(spot: Spot, sides: Sides, random: Random) -> Spot {
    Spot {
        column: bent_place(spot.column, sides.width, random),
        row: bent_place(spot.row, sides.height, random.next()),
    }
}

// The kinds of calls on a floor.
const KINDS: [Kind; 6] = [
    Kind::Floors,
    Kind::Rooms,
    Kind::Tables,
    Kind::Checks,
    Kind::FoundRoutes,
    Kind::ReadRoutes,
];

// A call bent, of any kind on a floor; a room is asked for around the goal.
fn bent(call: Call, random: Random) -> Call {
    let kind = KINDS[random.later(1).below(6)];
    let goal = bent_spot(call.goal, call.sides, random.later(8));
    let start = if kind == Kind::Rooms {
        goal
    } else {
        bent_spot(call.start, call.sides, random.later(6))
    };
    Call {
        kind,
        sides: Sides {
            width: bent_side(call.sides.width, random.later(2)),
            height: bent_side(call.sides.height, random.later(3)),
        },
        bytes: bent_length(call.bytes, random.later(4)),
        entries: bent_length(call.entries, random.later(5)),
        start,
        goal,
        ..call
    }
}

// The trial of a bent call; a check is of the table that stands.
fn trial_of(call: Call) -> Trial {
    match call.kind {
        Kind::Checks => Trial {
            line: Line::OtherChecks,
            ..Trial::from(call)
        },
        _ => Trial::from(call),
    }
}

// Tries bent calls between any two cells of a floor.
pub fn try_on(bench: &mut Bench, sides: Sides, seed: Random) {
    let call = trial::on_floor(sides);
    let start = seed.later(3).pick(call.entries);
    let goal = seed.later(5).pick(call.entries);
    let call = Call {
        room: 64,
        ..trial::from(trial::to(call, goal), start)
    };
    let mut random = seed;
    for _ in 0..8 {
        bench.attempt_trial(trial_of(bent(call, random)));
        random = random.later(10);
    }
}
