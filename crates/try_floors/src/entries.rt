// Entries of a table altered in ways that a check could miss.
use crate::random::Random;

// Another entry: 0, the mark, one a step away, one with parts at the limit or past it, or any; the same by chance.
fn other_entry(entry: u32, random: Random) -> u32 {
    match random.below(10) {
        0 => 0,
        1 => u32::MAX,
        2 => entry ^ 1,
        3 => entry ^ 65536,
        4 => entry ^ 65537,
        5 => 1073741824,
        6 => 16384,
        7 => 4294967294,
        8 => 1073692671,
        _ => random.below(4000000) as u32,
    }
}

// An entry altered.
pub fn altered(entry: u32, random: Random) -> u32 {
    let other = other_entry(entry, random);
    if other == entry {
        return entry ^ 1;
    }
    other
}
