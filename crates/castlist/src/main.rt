// Prints the listing of the file on standard input.
#![tactic(auto)]

use std::io::Read;

fn main(rt: HostRuntime) {
    let mut input = [0u8; 32769];
    let mut out = [0u8; 98304];
    let n = io::read_full(0, &mut input);
    if n < 32769 {
        if !ended(&rt) {
            io::write_all(2, b"castlist: standard input cannot be read\n");
            return;
        }
    }
    let m = listing::list_read(&input, n, &mut out);
    if !io::write_all(1, &out[..m]) {
        io::write_all(2, b"castlist: standard output cannot be written\n");
    }
}

// Whether standard input is at its end. After a read that failed, the next one fails too or finds more.
fn ended(rt: &HostRuntime) -> bool {
    let mut more = [0u8; 1];
    matches!(rt.stdin().read(&mut more), Ok(0))
}
