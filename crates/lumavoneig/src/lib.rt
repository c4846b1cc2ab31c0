// The calls for programs in other languages: the answer's number, place and length go to a buffer of their own.
#![tactic(auto)]

ghost use Rattle.demands.specs.Demands.{PlanSays, ReviewSays};
ghost use Rattle.crane_demands.specs.Demands.{CraneSays};
ghost use Rattle.answers.specs.Answers.{Answers};

use answers::put_answer;

#[unsafe(no_mangle)]
pub extern "C" fn lumavoneig_plan(text: &[u8], out: &mut [u8], answer: &mut [u64])
    ensures { Answers (λ r. PlanSays text.now out.old out.new r)
        answer.old answer.new }
{
    let returned = ranks::write_plan(text, out);
    put_answer(returned, answer);
}

#[unsafe(no_mangle)]
pub extern "C" fn lumavoneig_review(text: &[u8], out: &mut [u8], answer: &mut [u64])
    ensures { Answers (λ r. ReviewSays text.now out.old out.new r)
        answer.old answer.new }
{
    let returned = ranks::review_order(text, out);
    put_answer(returned, answer);
}

#[unsafe(no_mangle)]
pub extern "C" fn lumavoneig_crane(text: &[u8], out: &mut [u8], answer: &mut [u64])
    ensures { Answers (λ r. CraneSays text.now out.old out.new r)
        answer.old answer.new }
{
    let returned = cranes::write_crane(text, out);
    put_answer(returned, answer);
}
