// The program "ways": reads a plan on standard input, and prints its lines.
#![tactic(auto)]

use std::io;

fn main(rt: HostRuntime) -> io::Result<()> {
    print_out::run(&mut rt.stdin(), &mut rt.stdout())
}
