// Calls that the buffers are long enough for.
ghost use Rattle.std.specs.Prelude.{◌≤◌};
ghost use Rattle.try_solver.specs.declared.ask.TheConstants.{ENTRIES, MAP, ROOM};

use try_solver::ask::{Call, ENTRIES, MAP, ROOM};

// A call over no more bytes of the map, entries of a table and bytes of room for legs than there are.
#[derive(Clone, Copy)]
pub struct Fitting {
    pub call: Call,
    ghost map_fits: { call.bytes ≤ MAP },
    ghost table_fits: { call.entries ≤ ENTRIES },
    ghost legs_fit: { call.room ≤ ROOM },
}

impl Fitting {
    // A call, if it fits.
    pub fn new(call: Call) -> Option<Fitting> {
        if MAP < call.bytes || ENTRIES < call.entries || ROOM < call.room {
            return None;
        }
        Some(Fitting { call })
    }
}
