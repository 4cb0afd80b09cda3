// What is counted: for each line how many were compared and how many differed, and how often each of the numbers was
// the answer.
use std::{fmt, io};
use try_solver::ask::{Kind, Said};

// The lines: one for each kind of call, where checks are those of filled tables; then checks of tables with one entry
// altered, with several, and of any others; routes with legs, by their leg buffers; and what calls left. A new line
// stands here, in `ALL` and in `fmt`.
#[derive(Clone, Copy, PartialEq, Eq)]
pub enum Line {
    Floors,
    Rooms,
    Comparisons,
    Distances,
    Tables,
    Checks,
    FoundRoutes,
    ReadRoutes,
    OneAltered,
    SomeAltered,
    OtherChecks,
    ExactBuffers,
    ShortBuffers,
    EmptyBuffers,
    Entries,
    LegBytes,
}

// How many lines there are.
const LINES: usize = 16;

impl Line {
    // Every line, in the order in which they are printed.
    const ALL: [Line; LINES] = [
        Line::Floors,
        Line::Rooms,
        Line::Comparisons,
        Line::Distances,
        Line::Tables,
        Line::Checks,
        Line::FoundRoutes,
        Line::ReadRoutes,
        Line::OneAltered,
        Line::SomeAltered,
        Line::OtherChecks,
        Line::ExactBuffers,
        Line::ShortBuffers,
        Line::EmptyBuffers,
        Line::Entries,
        Line::LegBytes,
    ];

    // The line of a route's leg buffer, if it has legs and its buffer is exactly long enough, one byte short, or empty.
    pub fn of_buffer(room: usize, legs: usize) -> Option<Line> {
        match room {
            _ if legs == 0 => None,
            0 => Some(Line::EmptyBuffers),
            _ if room % 2 == 0 && room / 2 == legs => Some(Line::ExactBuffers),
            _ if room % 2 == 1 && room / 2 + 1 == legs => Some(Line::ShortBuffers),
            _ => None,
        }
    }
}

impl From<Kind> for Line {
    fn from(kind: Kind) -> Line {
        match kind {
            Kind::Floors => Line::Floors,
            Kind::Rooms => Line::Rooms,
            Kind::Comparisons => Line::Comparisons,
            Kind::Distances => Line::Distances,
            Kind::Tables => Line::Tables,
            Kind::Checks => Line::Checks,
            Kind::FoundRoutes => Line::FoundRoutes,
            Kind::ReadRoutes => Line::ReadRoutes,
        }
    }
}

impl fmt::Display for Line {
    fn fmt<W: fmt::Write>(&self, f: &mut fmt::Formatter<W>) -> fmt::Result {
        f.write_str(match self {
            Line::Floors => "floors",
            Line::Rooms => "rooms",
            Line::Comparisons => "comparisons",
            Line::Distances => "distances",
            Line::Tables => "tables",
            Line::Checks => "checks of filled tables",
            Line::FoundRoutes => "routes found",
            Line::ReadRoutes => "routes read",
            Line::OneAltered => "checks with one entry altered",
            Line::SomeAltered => "checks with several entries altered",
            Line::OtherChecks => "checks of other tables",
            Line::ExactBuffers => "leg buffers exactly long enough",
            Line::ShortBuffers => "leg buffers one byte short",
            Line::EmptyBuffers => "leg buffers empty",
            Line::Entries => "entries left in tables",
            Line::LegBytes => "bytes left in leg buffers",
        })
    }
}

// How many were compared, and how many of them differed.
#[derive(Clone, Copy, PartialEq, Eq)]
struct Counts {
    compared: usize,
    differed: usize,
}

impl fmt::Display for Counts {
    fn fmt<W: fmt::Write>(&self, f: &mut fmt::Formatter<W>) -> fmt::Result {
        let Counts { compared, differed } = *self;
        write!(f, "{compared} compared, {differed} differed")
    }
}

// How many numbers of answers are counted: each up to 31, and then any other.
const NUMBERS: usize = 33;

// The highest number that a call gives: the counts up to it are printed though they are 0.
const LAST: usize = 13;

// The counts of every line, and of the numbers of answers.
#[derive(Drop)]
pub struct Tally {
    lines: [Counts; LINES],
    answers: [usize; NUMBERS],
}

impl Tally {
    // Nothing counted.
    pub fn new() -> Tally {
        Tally {
            lines: [Counts {
                compared: 0,
                differed: 0,
            }; LINES],
            answers: [0; NUMBERS],
        }
    }

    // Counts so many compared, and so many of them that differed.
    fn note(&mut self, line: Line, compared: usize, differed: usize) {
        let counts = &mut self.lines[line as usize];
        counts.compared = counts.compared.saturating_add(compared);
        counts.differed = counts.differed.saturating_add(differed);
    }

    // Counts one that was compared.
    pub fn note_one(&mut self, line: Line, is_same: bool) {
        self.note(line, 1, usize::from(!is_same));
    }

    // Counts elements that were left, by ours and by theirs: whether they are the same.
    pub fn compare<T: PartialEq>(&mut self, line: Line, ours: &[T], theirs: &[T]) -> bool {
        let pairs = ours.iter().zip(theirs);
        let differed = pairs.filter(|(one, other)| one != other).count();
        self.note(line, ours.len(), differed);
        differed == 0
    }

    // Counts the number of an answer, which is 0 where it gives values.
    pub fn note_answer(&mut self, said: Said) {
        let number = said.err().map_or(0, |refused| refused.number);
        let times = &mut self.answers[number.min(NUMBERS - 1)];
        *times = times.saturating_add(1);
    }

    // Prints the lines of calls in which faults were planted.
    pub fn print_planted(&self, rt: &impl Print) -> io::Result<()> {
        for kind in Kind::ALL {
            let line = Line::from(kind);
            println!(rt; "planted in {line}: {}", self.lines[line as usize])?;
        }
        Ok(())
    }

    // Prints how often each number was the answer; of those that no call gives, only if it was.
    fn print_answers(&self, rt: &impl Print) -> io::Result<()> {
        for (number, times) in self.answers.iter().enumerate() {
            if number <= LAST || *times != 0 {
                println!(rt; "answer {number}: {times} times")?;
            }
        }
        Ok(())
    }

    // Prints every line, and the answers.
    pub fn print(&self, rt: &impl Print) -> io::Result<()> {
        for line in Line::ALL {
            println!(rt; "{line}: {}", self.lines[line as usize])?;
        }
        self.print_answers(rt)
    }
}
