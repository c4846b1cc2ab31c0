// The watcher's call for programs in other languages, in a library of its own: the planner's stays as fast as it is
// without a second reader of table lines in it.
#![tactic(auto)]

ghost use Rattle.watch_demands.specs.Demands.{WatchSays};
ghost use Rattle.answers.specs.Answers.{Answers};

use answers::put_answer;

#[unsafe(no_mangle)]
pub extern "C" fn lumavoneig_watch(text: &[u8], out: &mut [u8], answer: &mut [u64])
    ensures { Answers (λ r. WatchSays text.now out.old out.new r)
        answer.old answer.new }
{
    let returned = watches::watch_board(text, out);
    put_answer(returned, answer);
}
