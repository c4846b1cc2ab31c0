// What a call returns, as numbers in a buffer of their own, for programs in other languages. Each
// `as` is proved to lose nothing.
#![tactic(auto)]

ghost use Rattle.std.specs.Prelude.{◌≡◌};
ghost use Rattle.answers.specs.Answers.{answered};

use plans::Refusal;

// The answer's three numbers, where the buffer has room for them: the refusal's number, 0 for none, its place, and how
// many bytes were written.
pub fn put_answer(returned: Result<usize, Refusal>, answer: &mut [u64])
    ensures { answer.new ≡ answered returned answer.old }
{
    if answer.len() >= 3 {
        let numbers = match returned {
            Ok(long) => [0, 0, long as u64],
            Err(refusal) => [refusal.number() as u64, refusal.place() as u64, 0],
        };
        answer[..3].copy_from_slice(&numbers);
    }
}
