// Lengths, their sizes, their entries in a table, and the distance spoken.
//
// The size of a length is straight + diagonal × √2 in parts of 2^-40, with √2 taken as 1,554,944,255,988 of them, which
// is less than half a part off. Two different lengths with parts up to 16,384, p and q their differences, are at least
// 1 / (|p| + |q| × √2) apart, since p² - 2q² is a whole number and not 0: more than 2^-16, where the sizes' error is
// less than 2^-26. So sizes order lengths exactly.
ghost use Rattle.std.specs.Prelude.{◌≤◌, ◌<◌};

use crate::ask::{Length, Refused, Said};

// The mark of a table.
pub const MARK: u32 = u32::MAX;

// How many straight steps a way has, and how many diagonal ones.
#[derive(Clone, Copy, PartialEq, Eq)]
pub struct Steps {
    pub straight: u16,
    pub diagonal: u16,
}

impl Steps {
    // No step, a straight one, and a diagonal one.
    pub const ZERO: Steps = Steps {
        straight: 0,
        diagonal: 0,
    };

    pub const STRAIGHT: Steps = Steps {
        straight: 1,
        diagonal: 0,
    };

    pub const DIAGONAL: Steps = Steps {
        straight: 0,
        diagonal: 1,
    };

    // Up to 16,383 steps of each kind.
    fn new(straight: u32, diagonal: u32) -> Option<Steps> {
        if 16383 < straight || 16383 < diagonal {
            return None;
        }
        Some(Steps {
            straight: straight as u16,
            diagonal: diagonal as u16,
        })
    }

    // The steps of a table's entry; of the mark and of a malformed entry, none. Not a `TryFrom`: none is no error here.
    pub fn of_entry(entry: u32) -> Option<Steps> {
        Steps::new(entry / 65536, entry % 65536)
    }

    // The steps of two ways, one after the other.
    pub fn plus(self, more: Steps) -> Steps {
        Steps {
            straight: self.straight.saturating_add(more.straight),
            diagonal: self.diagonal.saturating_add(more.diagonal),
        }
    }

    // The size.
    pub fn size(self) -> u64 {
        u64::from(self.straight) * 1099511627776 + u64::from(self.diagonal) * 1554944255988
    }

    // Whether these are shorter than others.
    pub fn is_shorter(self, other: Steps) -> bool {
        self.size() < other.size()
    }
}

// The steps as a table's entry.
impl From<Steps> for u32 {
    fn from(steps: Steps) -> u32 {
        u32::from(steps.straight) * 65536 + u32::from(steps.diagonal)
    }
}

// The steps of a length; 12.
impl TryFrom<Length> for Steps {
    type Error = Refused;

    fn try_from(length: Length) -> Result<Steps, Refused> {
        Steps::new(length.straight, length.diagonal).ok_or(Refused::numbered(12))
    }
}

// The shorter of two lengths, of which either may be none; of equal ones the first.
pub fn shorter_of(first: Option<Steps>, second: Option<Steps>) -> Option<Steps> {
    match (first, second) {
        (Some(length), Some(other)) if !other.is_shorter(length) => first,
        (_, None) => first,
        _ => second,
    }
}

// The entry of a length; where there is none, the mark.
pub fn entry_of(length: Option<Steps>) -> u32 {
    length.map_or(MARK, u32::from)
}

// Comparing two lengths: 1 if the first is shorter, else 0; 12.
pub fn compare(length: Length, other: Length) -> Said {
    let steps = Steps::try_from(length)?;
    let others = Steps::try_from(other)?;
    Ok([usize::from(steps.is_shorter(others)), 0, 0, 0])
}

// The whole root of a number, rounded down, by its binary digits; the library takes no root at all.
fn root_of(square: u64) -> u32 {
    let mut root: u32 = 0;
    for digit in 0..32u32 {
        let next = root | 1 << (31 - digit);
        if u64::from(next) * u64::from(next) <= square {
            root = next;
        }
    }
    root
}

// The whole number nearest to m√2: the root of 8m² is 2m√2 rounded down, and half of the next number, rounded down, is
// the nearest.
fn nearest(m: u64) -> u64
    requires { m ≤ 65535000 }
    ensures { result ≤ 2147483648 }
{
    (u64::from(root_of(8 * (m * m))) + 1) / 2
}

// The distance spoken of a length in cells of a size: the centimetres; 12, 13.
pub fn distance(length: Length, size: u32) -> Said {
    let steps = Steps::try_from(length)?;
    if size < 1 || 1000 < size {
        return Err(Refused::numbered(13));
    }
    let size = u64::from(size);
    let centimetres = size * u64::from(steps.straight) + nearest(size * u64::from(steps.diagonal));
    Ok([centimetres as usize, 0, 0, 0])
}

// How many straight steps are nearest to so many diagonal ones, up to 16,384.
pub fn nearest_to(diagonal: u32) -> u32
    requires { diagonal ≤ 16384 }
    ensures { result < 32768 }
{
    (nearest(u64::from(diagonal)) % 32768) as u32
}
