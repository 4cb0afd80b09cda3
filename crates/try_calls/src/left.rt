// What calls leave in the lent buffers.
ghost use Rattle.std.specs.Prelude.{◌≤◌};
ghost use Rattle.try_solver.specs.declared.ask.TheConstants.{ENTRIES, ROOM};

use crate::fitting::Fitting;
use try_solver::ask::Kind;

// Whether a kind of call leaves a table.
pub fn leaves_entries(kind: Kind) -> bool {
    matches!(kind, Kind::Tables | Kind::FoundRoutes)
}

// Whether a kind of call leaves legs.
pub fn leaves_legs(kind: Kind) -> bool {
    matches!(kind, Kind::FoundRoutes | Kind::ReadRoutes)
}

// How many entries of a table and bytes of legs a call leaves.
#[derive(Clone, Copy)]
pub struct Left {
    pub entries: usize,
    pub bytes: usize,
    ghost table_fits: { entries ≤ ENTRIES },
    ghost legs_fit: { bytes ≤ ROOM },
}

impl Left {
    // What a call leaves: its table and its room, or nothing of them.
    pub fn of(fitting: Fitting) -> Left {
        let call = fitting.call;
        Left {
            entries: if leaves_entries(call.kind) {
                call.entries
            } else {
                0
            },
            bytes: if leaves_legs(call.kind) { call.room } else { 0 },
        }
    }
}
