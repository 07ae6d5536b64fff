// Replays the stored calls of each area (data/AREA, made by the oracle from the Rust's answers) and
// prints how many there were and how many answers differ.
#![tactic(auto)]

use std::fs;
use std::fs::File;

pub mod record;

// The number of standard output.
const STDOUT_FILENO: i32 = 1;

// What was replayed of one file.
fn print(calls: u64, different: u64) {
    io::print_decimal(STDOUT_FILENO, calls);
    io::write_all(STDOUT_FILENO, b" calls, ");
    io::print_decimal(STDOUT_FILENO, different);
    io::write_all(STDOUT_FILENO, b" different\n");
}

// Replays a file, at most a million calls of it.
fn replay(file: &mut File) {
    let mut different: u64 = 0;
    for calls in 0..1000000 {
        let Some(same) = record::next(file) else {
            print(calls, different);
            return;
        };
        if !same {
            different += 1;
        }
    }
    print(1000000, different);
}

// Replays the file of an area.
fn area(rt: &HostRuntime, name: &str) {
    io::write_all(STDOUT_FILENO, name.as_bytes());
    io::write_all(STDOUT_FILENO, b" ");
    let Ok(mut file) = fs::open(rt, name) else {
        io::write_all(STDOUT_FILENO, b"has no stored calls\n");
        return;
    };
    replay(&mut file);
}

fn main(rt: HostRuntime) {
    area(&rt, "border");
    area(&rt, "ieee");
    area(&rt, "math");
    area(&rt, "transform");
    area(&rt, "picture");
    area(&rt, "marks");
    area(&rt, "fit");
    area(&rt, "ring");
    area(&rt, "outline");
    area(&rt, "attempt");
    area(&rt, "listing");
}
