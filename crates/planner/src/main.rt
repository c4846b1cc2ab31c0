// The planner: the plan of the table on standard input, or its refusal, on standard output.
#![tactic(auto)]

const STDIN: i32 = 0;

const STDOUT: i32 = 1;

// The bytes of the input that are taken as the text.
const TEXT_MAX: usize = 16_384;

// Its twins differ in the call and in two sizes. One function of all four was tried, with the call as a parameter: the
// prover does not cover a bound of a call that names the buffer's size yet.
fn main() {
    let mut text = [0u8; TEXT_MAX];
    let n = io::read_full(STDIN, &mut text);
    let mut out = ranks::buffer();
    let long = ranks::print_plan(&text[..n], &mut out);
    io::write_all(STDOUT, &out[..long]);
}
