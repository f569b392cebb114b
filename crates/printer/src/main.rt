#![tactic(auto)]
// The printer: reads a header, a list of calls and bits from standard input, and prints the run's records, its bits and its refusal.
use printing::print::print;

// The file descriptors of POSIX.
const STDIN_FILENO: i32 = 0;

const STDOUT_FILENO: i32 = 1;

fn main() {
    let mut input = [0u8; 32768];
    let mut out = [0u8; 100352];
    let n = io::read_full(STDIN_FILENO, &mut input);
    let size = print(&mut out, &input[..n]);
    io::write_all(STDOUT_FILENO, &out[..size]);
}
