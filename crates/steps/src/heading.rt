// The eight headings, by their numbers: N, NE, E, SE, S, SW, W, NW are 0 to 7.
ghost use Rattle.std.specs.Prelude.{◌≡◌, ◌%◌, ◌<◌, eqb};

// Column and row change of a heading, each plus one.
#[derive(Clone, Copy, PartialEq, Eq)]
pub struct Change {
    pub column: usize,
    pub row: usize,
}

// A heading, by its number, which is also its byte in a leg: loops count the headings by it, and an odd one is
// diagonal.
#[derive(Clone, Copy, PartialEq, Eq)]
pub struct Heading {
    pub number: usize,
    pub ghost known: { number < 8 },
}

// The one table of headings. A static, as a constant array is copied to the stack at each read: that makes reading a
// route three times as slow.
static CHANGES: [Change; 8] = [
    Change { column: 1, row: 0 },
    Change { column: 2, row: 0 },
    Change { column: 2, row: 1 },
    Change { column: 2, row: 2 },
    Change { column: 1, row: 2 },
    Change { column: 0, row: 2 },
    Change { column: 0, row: 1 },
    Change { column: 0, row: 0 },
];

impl Heading {
    ghost use Rattle.steps.specs.Heading.{change_of};

    // Its column and row change, each plus one.
    #[tactic(auto, unfolding(crate::specs::Heading::change_of, crate::specs::Heading::changes))]
    pub fn change(self) -> Change
        ensures { result ≡ change_of self.number }
    {
        CHANGES[self.number]
    }

    // Whether its step is a diagonal one.
    pub fn is_diagonal(self) -> bool
        ensures { result ≡ eqb (self.number % 2) 1 }
    {
        self.number % 2 == 1
    }
}
