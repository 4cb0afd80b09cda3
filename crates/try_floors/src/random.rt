// Numbers that look random: each is 48,271 times the one before it, by the remainder at 2^31 - 1.
ghost use Rattle.std.specs.Prelude.{◌<◌};

// A number, from which smaller ones are taken and the numbers after it come.
#[derive(Clone, Copy, PartialEq, Eq)]
pub struct Random(pub u64);

impl Random {
    // The number after it.
    pub fn next(self) -> Random {
        Random(self.0 % 2147483647 * 48271 % 2147483647)
    }

    // The n-th number after it.
    pub fn later(self, n: usize) -> Random {
        (0..n).fold(self, |random, _| random.next())
    }

    // A number below a limit, from it.
    pub fn below(self, limit: usize) -> usize
        requires { 0 < limit }
        ensures { result < limit }
    {
        (self.0 / 64) as usize % limit
    }

    // One of so many, counted from 0; 0 if there are none.
    pub fn pick(self, count: usize) -> usize {
        if count == 0 {
            return 0;
        }
        self.below(count)
    }
}
