// Runs framed cases from standard input, and prints a line for each: the function's number, then its answer and a
// checksum of each buffer that it was lent. frame.rt has the layout of a case.
#![tactic(auto)]

mod answer;
mod buffers;
mod cases;
mod files;
mod frame;
mod leaves;
mod listings;
mod outputs;
mod parts;
mod reads;
mod rows;
mod trims;
mod walks;
mod writes;

use crate::answer::Answer;
use crate::frame::Frame;

fn main() {
    let mut payload = io::large_buffer();
    for _ in 0..1_000_000 {
        if !one_case(&mut payload) {
            break;
        }
    }
}

// Reads a case, runs it and prints its line; false at the end of the input, or where a case is cut short.
fn one_case(payload: &mut [u8]) -> bool {
    let mut header = [0u8; 32];
    if io::read_full(0, &mut header) < 32 {
        return false;
    }
    let f = frame::parse(&header);
    let n = frame::both(f);
    if payload.len() < n {
        return false;
    }
    if io::read_full(0, &mut payload[..n]) < n {
        return false;
    }
    run(f, payload);
    true
}

// Runs a case whose blocks are the payload's first bytes, and prints its line.
fn run(f: Frame, payload: &[u8]) {
    let first = f.first as usize;
    let n = frame::both(f);
    if payload.len() < n {
        return;
    }
    print(
        f.function,
        cases::run(f, &payload[..first], &payload[first..n]),
    );
}

// A line: the function's number, and the answer's, each after a space.
fn print(function: u32, answer: Answer) {
    io::print_decimal(1, function as u64);
    for n in answer.numbers.iter().take(answer.count) {
        io::write_all(1, b" ");
        io::print_decimal(1, *n);
    }
    io::write_all(1, b"\n");
}
