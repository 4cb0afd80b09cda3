// Runs what "ways" does on every file of data/ that an argument names: its name, then its lines.
#![tactic(auto)]

use std::env::FillError;
use std::fs::OpenOptions;
use std::rt::{Env, Files};
use std::{io, str};

// Prints the name of the file that an argument names, and the lines for it.
fn run(rt: &HostRuntime, path: &str) -> io::Result<()> {
    let mut file = match rt.open_file(OpenOptions::new().read(true), path) {
        Ok(file) => file,
        Err(error) => return eprintln!(rt; "{path}: {error}"),
    };
    println!(rt; "{path}")?;
    print_out::run(&mut file, &mut rt.stdout())
}

fn main(rt: HostRuntime) -> io::Result<()> {
    let mut buffer = [0u8; 4096];
    for i in 1..usize::MAX {
        let length = match rt.arg(i, &mut buffer) {
            Ok(length) => length,
            Err(FillError::NotPresent) => return Ok(()),
            Err(FillError::TooLong) => {
                eprintln!(rt; "argument {i}: too long")?;
                continue;
            }
        };
        match str::from_utf8(&buffer[..length]) {
            Ok(path) => run(&rt, path)?,
            Err(_) => eprintln!(rt; "argument {i}: not UTF-8")?,
        }
    }
    Ok(())
}
