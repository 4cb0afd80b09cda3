// The library compared with the second solver, over every small floor, some longer shapes, given floors, and floors
// that look random.
//
// It prints, for each kind of call, how many were compared and how many differed, and the same of the entries and bytes
// that they left; then how often each number was the answer; then, over calls with one fault planted in each, how many
// were compared and how many differed: all must.
#![tactic(auto)]

mod bent;
mod families;
mod faults;
mod measures;
mod trial;

use std::io;
use try_calls::Bench;
use try_calls::tally::Tally;

fn main(rt: HostRuntime) -> io::Result<()> {
    let mut bench = Bench::new();
    families::try_all(&mut bench);
    measures::try_all(&mut bench);
    bench.tally.print(&rt)?;
    bench.tally = Tally::new();
    faults::try_all(&mut bench);
    bench.tally.print_planted(&rt)
}
