// The watcher: the jobs that a board finishes, run as the text on standard input says, on standard output.
#![tactic(auto)]

const STDIN: i32 = 0;

const STDOUT: i32 = 1;

// The bytes of the input that are taken as the text.
const TEXT_MAX: usize = 65_536;

// Its twins differ in the call and in two sizes. One function of all four was tried, with the call as a parameter: the
// prover does not cover a bound of a call that names the buffer's size yet.
fn main() {
    let mut text = [0u8; TEXT_MAX];
    let n = io::read_full(STDIN, &mut text);
    let mut out = watches::buffer();
    let long = watches::print_watch(&text[..n], &mut out);
    io::write_all(STDOUT, &out[..long]);
}
