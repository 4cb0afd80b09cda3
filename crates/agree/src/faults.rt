// Calls with a fault planted in what the library said or left, which have to be found to differ.
use crate::trial;
use try_calls::fault::Fault;
use try_calls::{Bench, Trial};
use try_floors::floors;
use try_floors::floors::Pattern;
use try_floors::random::Random;
use try_solver::ask::{Call, Kind, Length, Sides};

// Tries a call with a fault at each place where one can be planted.
fn try_faults(bench: &mut Bench, call: Call) {
    for fault in Fault::ALL {
        if fault.fits(call.kind) {
            bench.attempt_trial(Trial {
                fault: Some(fault),
                ..Trial::from(call)
            });
        }
    }
}

// Tries faults in calls of each kind, on the floor of 5 by 3 cells whose middle one is blocked.
pub fn try_all(bench: &mut Bench) {
    let sides = Sides {
        width: 5,
        height: 3,
    };
    floors::lay(sides, Pattern::Digits(128), Random(0), &mut bench.map);
    let ends = trial::from(trial::to(trial::on_floor(sides), 9), 5);
    for kind in Kind::ALL {
        try_faults(
            bench,
            Call {
                kind,
                room: 7,
                size: 50,
                length: Length {
                    straight: 140,
                    diagonal: 0,
                },
                other: Length {
                    straight: 0,
                    diagonal: 99,
                },
                ..ends
            },
        );
    }
}
