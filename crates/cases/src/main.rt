// The worked cases that are run, not proved: what the entry points answer is printed.
#![tactic(auto)]

use answers::Refusal;
use floor::{Map, Spot};
use route_legs::Way;
use std::io;

// The number that accepting a floor gives back.
fn accepted(map: &Map) -> usize {
    match floor::accept(map) {
        Ok(_) => 0,
        Err(refusal) => refusal.number(),
    }
}

// Floors that are accepted, or refused.
fn floors(rt: &impl Print) -> io::Result<()> {
    let zeros = [0u8; 16];
    let cases: [(&str, usize, usize, &[u8]); 11] = [
        ("width 9, one row, bytes 0, 2", 9, 1, &[0, 2]),
        ("width 8, byte 128", 8, 1, &[128]),
        ("width 128", 128, 1, &zeros),
        ("width 129", 129, 1, &zeros),
        ("width 0", 0, 1, &zeros),
        ("height 0", 8, 0, &[]),
        ("height 129", 8, 129, &zeros),
        ("the largest width", usize::MAX, 1, &zeros),
        ("the largest height", 1, usize::MAX, &zeros),
        ("width 128, a map of 15 bytes", 128, 1, &zeros[..15]),
        ("width 120, a map of 16 bytes", 120, 1, &zeros),
    ];
    for (label, width, height, bytes) in cases {
        let number = accepted(&Map {
            width,
            height,
            bytes,
        });
        println!(rt; "{label}: {number}")?;
    }
    Ok(())
}

// What a call for a route gives back, as a line.
fn say_answer(rt: &impl Print, label: &str, answer: Result<Way, Refusal>) -> io::Result<()> {
    match answer {
        Ok(Way { length, legs }) => println!(rt;
            "{label}: 0, length {} {}, legs {legs}",
            length.straight, length.diagonal
        ),
        Err(refusal) => { println!(rt; "{label}: {} with {}", refusal.number(), refusal.place()) }
    }
}

// The bytes of a leg buffer, as a line.
fn say_bytes(rt: &impl Print, label: &str, bytes: &[u8]) -> io::Result<()> {
    print!(rt; "{label}:")?;
    for byte in bytes {
        print!(rt; " {byte}")?;
    }
    println!(rt)
}

// The route of the 8 by 4 floor, all open, from (0, 3) to (7, 0), over a lent leg buffer.
fn eight_by_four(rt: &impl Print, label: &str, legs: &mut [u8]) -> io::Result<()> {
    let map = Map {
        width: 8,
        height: 4,
        bytes: &[0; 4],
    };
    let start = Spot { column: 0, row: 3 };
    let goal = Spot { column: 7, row: 0 };
    let answer = route::find_route(&map, start, goal, &mut [0; 32], legs);
    say_answer(rt, label, answer)?;
    say_bytes(rt, "the leg buffer", legs)
}

fn main(rt: HostRuntime) -> io::Result<()> {
    floors(&rt)?;
    eight_by_four(&rt, "8 by 4, a 5-byte leg buffer", &mut [9; 5])?;
    eight_by_four(&rt, "8 by 4, a 3-byte leg buffer", &mut [9; 3])
}
