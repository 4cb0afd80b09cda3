// Tables that are not right: entries of the solver's table altered in ways that a check could miss.
use crate::tally::Line;
use try_floors::entries;
use try_floors::random::Random;
use try_solver::ask::ENTRIES;

// How a table is altered: not at all, in so many of its entries, or in all, which are made the same, but the first.
#[derive(Clone, Copy, PartialEq, Eq)]
pub enum Alteration {
    Nothing,
    Entries(usize),
    Whole { entry: u32, first: u32 },
}

impl Alteration {
    // Every way in which tables are altered: last, every entry at the limit and the first what a step makes it, past
    // the limit or not, and 0.
    pub const ALL: [Alteration; 6] = [
        Alteration::Nothing,
        Alteration::Entries(1),
        Alteration::Entries(3),
        Alteration::Whole {
            entry: 0x3fff_0000,
            first: 0x4000_0000,
        },
        Alteration::Whole {
            entry: 0x0000_3fff,
            first: 0x0001_3fff,
        },
        Alteration::Whole { entry: 0, first: 0 },
    ];

    // The line of a check of a table that is so altered.
    pub fn line(self) -> Line {
        match self {
            Alteration::Nothing => Line::Checks,
            Alteration::Entries(1) => Line::OneAltered,
            Alteration::Entries(_) => Line::SomeAltered,
            Alteration::Whole { .. } => Line::OtherChecks,
        }
    }

    // Alters the table of so many cells.
    pub fn apply(self, table: &mut [u32; ENTRIES], cells: usize, random: Random) {
        match self {
            Alteration::Nothing => {}
            Alteration::Entries(count) => alter_some(table, cells, count, random),
            Alteration::Whole { entry, first } => {
                table.fill(entry);
                table[0] = first;
            }
        }
    }
}

// Alters so many entries of so many cells.
fn alter_some(table: &mut [u32; ENTRIES], cells: usize, count: usize, seed: Random) {
    let mut random = seed;
    for _ in 0..count {
        if let Some(entry) = table.get_mut(random.pick(cells)) {
            *entry = entries::altered(*entry, random.next());
        }
        random = random.later(2);
    }
}
