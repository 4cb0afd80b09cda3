// Faults that are planted in what the library said or left, to see that they are found.
use crate::left;
use try_solver::ask::{Kind, Refused, Said, VALUES};

// Where a fault is planted: in the number of what was said, in a value, or in the last entry or the last byte of the
// legs that are left.
#[derive(Clone, Copy, PartialEq, Eq)]
pub enum Fault {
    Number,
    Value(usize),
    Entry,
    Leg,
}

impl Fault {
    // Every place of a fault.
    pub const ALL: [Fault; 7] = [
        Fault::Number,
        Fault::Value(0),
        Fault::Value(1),
        Fault::Value(2),
        Fault::Value(3),
        Fault::Entry,
        Fault::Leg,
    ];

    // Whether a fault can be planted there in a call of a kind.
    pub fn fits(self, kind: Kind) -> bool {
        match self {
            Fault::Number | Fault::Value(_) => true,
            Fault::Entry => left::leaves_entries(kind),
            Fault::Leg => left::leaves_legs(kind),
        }
    }

    // What was said, with the fault, if it goes there; of a refusal, each value is its place.
    pub fn spoilt(self, said: Said) -> Said {
        match (self, said) {
            (Fault::Number, Ok(_)) => Err(Refused::numbered(1)),
            (Fault::Number, Err(refused)) => Err(Refused {
                number: refused.number ^ 1,
                ..refused
            }),
            (Fault::Value(n), Ok(values)) => Ok(with_fault(values, n)),
            (Fault::Value(_), Err(refused)) => Err(Refused {
                place: refused.place ^ 1,
                ..refused
            }),
            _ => said,
        }
    }
}

// Values with a fault in the n-th.
fn with_fault(values: [usize; VALUES], n: usize) -> [usize; VALUES] {
    let mut spoilt = values;
    if let Some(value) = spoilt.get_mut(n) {
        *value ^= 1;
    }
    spoilt
}

// Plants a fault in the last element that is left, if there is one.
pub fn spoil<T: Copy, F: Fn(T) -> T>(left: &mut [T], fault: F)
    requires { F.IsAlwaysCallable fault }
{
    if let Some(last) = left.last_mut() {
        *last = fault(*last);
    }
}
