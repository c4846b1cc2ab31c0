// Document 01's cases and some of holds, of the switch, of curves and of deadlines, as texts: what has to be answered
// stands beside each, and the whole buffer is compared.
#![tactic(auto)]

use trial_calls::Program::{self, Planner, Reviewer};
use trials::{Refusal, SPACE, Text};

// The document's table up to the last beta, and its plan: with a switch of 0, each row's period as its deadline, and a
// hold of 0 and no points in each row before it.
const EXAMPLE: &[u8] = b"board=7
tasks=3
switch=0
task=11
period=24
deadline=24
worst=6
best=6
alpha=1000
beta=8000
hold=0
points=0
task=12
period=18
deadline=18
worst=2
best=2
alpha=1000
beta=8000
hold=0
points=0
task=13
period=200
deadline=200
worst=19
best=17
alpha=3000
";

const PLAN: &[u8] = b"plan=1
board=7
tasks=3
rank=1
task=12
best=2
worst=2
jitter=0
margin=6000
rank=2
task=11
best=6
worst=8
jitter=2
margin=0
rank=3
task=13
best=25
worst=35
jitter=10
margin=2000
";

// Its rows under a switch of 1, with an order, and what the reviewer has to say of it.
const SWITCHED: &[u8] = b"board=7
tasks=3
switch=1
task=11
period=24
deadline=24
worst=6
best=6
alpha=1000
beta=8000
hold=0
points=0
task=12
period=18
deadline=18
worst=2
best=2
alpha=1000
beta=8000
hold=0
points=0
task=13
period=200
deadline=200
worst=19
best=17
alpha=3000
beta=57000
hold=0
points=0
rank=12
rank=11
rank=13
";

const SWITCHED_PLAN: &[u8] = b"plan=1
board=7
tasks=3
rank=1
task=12
best=2
worst=3
jitter=1
margin=5000
rank=2
task=11
best=6
worst=10
jitter=4
margin=-2000
rank=3
task=13
best=25
worst=43
jitter=18
margin=-22000
";

// Two rows up to the second deadline. Of task 22 below 21, w(0), w(1), .. are 114, 202, 316, 404, 518, 606 and 694, which
// ends its busy interval: these jobs finish 114, 102, 116, 104, 118, 106 and 94 after their releases, so W is 118, by the
// fifth. E is 40: one job of 21 would make it 66, which is not past 70. Task 21 below 22 is late, as w(0) is 88.
const OVERRUN: &[u8] = b"board=7
tasks=2
switch=0
task=21
period=70
deadline=70
worst=26
best=26
alpha=1000
beta=30000
hold=0
points=0
task=22
period=100
";

// The plan where 22 is not late, with a beta of 196000 = 1000 x 40 + 2000 x 78.
const OVERRUN_PLAN: &[u8] = b"plan=1
board=7
tasks=2
rank=1
task=21
best=26
worst=26
jitter=0
margin=4000
rank=2
task=22
best=40
worst=118
jitter=78
margin=0
";

// Three rows in which a task that fits as the lowest has to be taken back. Task 1 below the others is late: w(0) = 16.
// Task 2 below 1 and 3 fits: w(0) = 19 and E = 1, so its margin is 361000 - 1000 - 20000 x 18 = 0. But then neither of
// the two fits below the other: 1 is late there, w(0) = 13, and 3 has E = 7, W = 18 and the margin
// 174000 - 7000 - 20000 x 11 = -53000. So the lowest is 3, whose W is 8 + 2 x 5 + 4 x 1 = 22 and E 7 + 5 + 2 = 14: the
// margin is 174000 - 14000 - 20000 x 8 = 0. Above it, 1 below 2 has E = 5, W = 6 and 5000 - 5000 - 20000 x 1 = -20000,
// and 2 below 1 has E = 1 and W = 6.
const TAKEN_BACK: &[u8] = b"board=7
tasks=3
switch=0
task=1
period=12
deadline=12
worst=5
best=5
alpha=20000
beta=5000
hold=0
points=0
task=2
period=6
deadline=19
worst=1
best=1
alpha=20000
beta=361000
hold=0
points=0
task=3
period=27
deadline=27
worst=8
best=7
alpha=20000
beta=174000
hold=0
points=0
";

const TAKEN_BACK_PLAN: &[u8] = b"plan=1
board=7
tasks=3
rank=1
task=1
best=5
worst=5
jitter=0
margin=0
rank=2
task=2
best=1
worst=6
jitter=5
margin=260000
rank=3
task=3
best=14
worst=22
jitter=8
margin=0
";

// Two rows whose load is 1. Of task 2 below 1, w(0), w(1) and w(2) are 350000, 700000 and 1050000, each past the next
// release, and the last is not found at or below 1000000: the task is late. Of 1 below 2, w(0) = 500000 is past its
// deadline.
const FULL: &[u8] = b"board=7
tasks=2
switch=0
task=1
period=400000
deadline=400000
worst=200000
best=200000
alpha=1000
beta=200000000000
hold=0
points=0
task=2
period=300000
deadline=1000000
worst=150000
best=150000
alpha=1000
beta=200000000000
hold=0
points=0
";

// The same at a tenth, with an order: 35000, 70000, 105000 and 120000, which is the fifth release and ends the busy
// interval. The responses are 35000, 40000, 45000 and 30000.
const TENTH: &[u8] = b"board=7
tasks=2
switch=0
task=1
period=40000
deadline=40000
worst=20000
best=20000
alpha=1000
beta=200000000000
hold=0
points=0
task=2
period=30000
deadline=1000000
worst=15000
best=15000
alpha=1000
beta=200000000000
hold=0
points=0
rank=1
rank=2
";

const TENTH_PLAN: &[u8] = b"plan=1
board=7
tasks=2
rank=1
task=1
best=20000
worst=20000
jitter=0
margin=199980000000
rank=2
task=2
best=15000
worst=45000
jitter=30000
margin=199955000000
";

// Two rows up to the second deadline. The first 50 ticks all go to task 1, so six jobs of task 2 below it are pending
// at once: w(0) = 54, w(1) = 58 and so on to w(8) = 86, the first that is not past the next release. The first
// response is the longest, and no second job of 1 comes before 100.
const PENDING: &[u8] = b"board=7
tasks=2
switch=0
task=1
period=100
deadline=100
worst=50
best=50
alpha=1000
beta=200000000000
hold=0
points=0
task=2
period=10
";

const PENDING_PLAN: &[u8] = b"plan=1
board=7
tasks=2
rank=1
task=1
best=50
worst=50
jitter=0
margin=199999950000
rank=2
task=2
best=4
worst=54
jitter=50
margin=199999946000
";

// The rows of OVERRUN above a third with a hold of 5, up to the second deadline. It adds 4 ticks, once, to each w(q)
// of both: W of 21 is 30, and of 22 w(0), w(1), .. are 118, 206, 320, 408, 522, 610 and 698, with the responses 118,
// 106, 120, 108, 122, 110 and 98. W of 23 is 5 + 10 x 26 + 7 x 62 = 699, and its E is its best time.
const HELD: &[u8] = b"board=7
tasks=3
switch=0
task=21
period=70
deadline=70
worst=26
best=26
alpha=1000
beta=30000
hold=0
points=0
task=22
period=100
";

const HELD_PLAN: &[u8] = b"plan=1
board=7
tasks=3
rank=1
task=21
best=26
worst=30
jitter=4
margin=0
rank=2
task=22
best=40
worst=122
jitter=82
margin=878000
rank=3
task=23
best=5
worst=699
jitter=694
margin=301000
";

// What has to be answered: a plan's text, or a refusal.
type Expected = Result<&'static [u8], Refusal>;

fn refusal(number: u8, place: u32) -> Expected {
    Err(Refusal { number, place })
}

// The call on a text, against the answer and the bytes that it has to write.
fn case(name: &str, program: Program, text: &[u8], expected: Expected) {
    let plan = expected.unwrap_or(b"");
    let mut wanted = [7; SPACE];
    let mut got = [7; SPACE];
    let n = plan.len().min(SPACE);
    wanted[..n].copy_from_slice(&plan[..n]);
    let expected = expected.map(|plan| plan.len());
    let same = program.call(text, &mut got) == expected && got == wanted;
    let verdict = if same { "ok" } else { "DIFFERS" };
    match expected {
        Ok(long) => trials::print(format_args!("{name}: the plan, {long} bytes: {verdict}\n")),
        Err(refusal) => trials::print(format_args!("{name}: {refusal}: {verdict}\n")),
    }
}

// The same on a text in two parts.
fn parts(name: &str, program: Program, first: &[u8], rest: &[u8], expected: Expected) {
    let text = Text::joined(first, rest);
    case(name, program, text.as_bytes(), expected);
}

// The same on the document's table with the rest of a text.
fn example(name: &str, program: Program, rest: &[u8], expected: Expected) {
    parts(name, program, EXAMPLE, rest, expected);
}

fn planner_cases() {
    example(
        "the document's example",
        Planner,
        b"beta=57000\nhold=0\npoints=0\n",
        Ok(PLAN),
    );
    example(
        "beta of 13 at 54999",
        Planner,
        b"beta=54999\nhold=0\npoints=0\n",
        refusal(8, 0),
    );
    example(
        "no line feed at the end",
        Planner,
        b"beta=57000\nhold=0\npoints=0",
        refusal(1, 30),
    );
    example(
        "a line too many",
        Planner,
        b"beta=57000\nhold=0\npoints=0\nrank=12\n",
        refusal(1, 31),
    );
}

fn reviewer_cases() {
    example(
        "order 12, 11, 13",
        Reviewer,
        b"beta=57000\nhold=0\npoints=0\nrank=12\nrank=11\nrank=13\n",
        Ok(PLAN),
    );
    example(
        "order 11, 13, 12",
        Reviewer,
        b"beta=57000\nhold=0\npoints=0\nrank=11\nrank=13\nrank=12\n",
        refusal(7, 3),
    );
    example(
        "rank of no task",
        Reviewer,
        b"beta=57000\nhold=0\npoints=0\nrank=12\nrank=14\nrank=13\n",
        refusal(6, 32),
    );
    example(
        "rank named twice",
        Reviewer,
        b"beta=57000\nhold=0\npoints=0\nrank=12\nrank=13\nrank=12\n",
        refusal(6, 33),
    );
    example(
        "ranks missing",
        Reviewer,
        b"beta=57000\nhold=0\npoints=0\n",
        refusal(1, 31),
    );
}

fn line_cases() {
    case("empty input", Planner, b"", refusal(1, 1));
    case("empty input, reviewer", Reviewer, b"", refusal(1, 1));
    case("board=07", Planner, b"board=07\n", refusal(2, 1));
    case("tasks=17", Planner, b"board=7\ntasks=17\n", refusal(3, 2));
}

fn row_plans() {
    case(
        "worst = period = 10",
        Planner,
        b"board=7\ntasks=1\nswitch=0\ntask=5\nperiod=10\ndeadline=10\nworst=10\nbest=10\nalpha=1000\nbeta=10000\nhold=0\npoints=0\n",
        Ok(b"plan=1\nboard=7\ntasks=1\nrank=1\ntask=5\nbest=10\nworst=10\njitter=0\nmargin=0\n"),
    );
    case(
        "worst = period = 1000000",
        Planner,
        b"board=7\ntasks=1\nswitch=0\ntask=5\nperiod=1000000\ndeadline=1000000\nworst=1000000\nbest=1\nalpha=1000\nbeta=1000000001\nhold=0\npoints=0\n",
        Ok(
            b"plan=1\nboard=7\ntasks=1\nrank=1\ntask=5\nbest=1\nworst=1000000\njitter=999999\nmargin=1\n",
        ),
    );
}

fn row_refusals() {
    case(
        "worst = period + 1 = 11",
        Planner,
        b"board=7\ntasks=1\nswitch=0\ntask=5\nperiod=10\ndeadline=10\nworst=11\n",
        refusal(4, 7),
    );
    case(
        "worst = period + 1 = 1000000",
        Planner,
        b"board=7\ntasks=1\nswitch=0\ntask=5\nperiod=999999\ndeadline=999999\nworst=1000000\n",
        refusal(4, 7),
    );
    case(
        "best = worst + 1",
        Planner,
        b"board=7\ntasks=1\nswitch=0\ntask=5\nperiod=10\ndeadline=10\nworst=9\nbest=10\n",
        refusal(4, 8),
    );
    case(
        "a task number used before",
        Planner,
        b"board=7\ntasks=2\nswitch=0\ntask=5\nperiod=10\ndeadline=10\nworst=9\nbest=1\nalpha=1000\nbeta=0\nhold=0\npoints=0\ntask=5\n",
        refusal(5, 13),
    );
}

// The same row up to its beta, with other holds.
fn hold_cases() {
    case(
        "hold = worst = 10",
        Planner,
        b"board=7\ntasks=1\nswitch=0\ntask=5\nperiod=10\ndeadline=10\nworst=10\nbest=10\nalpha=1000\nbeta=10000\nhold=10\npoints=0\n",
        Ok(b"plan=1\nboard=7\ntasks=1\nrank=1\ntask=5\nbest=10\nworst=10\njitter=0\nmargin=0\n"),
    );
    case(
        "hold = worst + 1",
        Planner,
        b"board=7\ntasks=1\nswitch=0\ntask=5\nperiod=10\ndeadline=10\nworst=10\nbest=10\nalpha=1000\nbeta=10000\nhold=11\npoints=0\n",
        refusal(4, 11),
    );
    case(
        "hold = 1000001",
        Planner,
        b"board=7\ntasks=1\nswitch=0\ntask=5\nperiod=10\ndeadline=10\nworst=10\nbest=10\nalpha=1000\nbeta=10000\nhold=1000001\npoints=0\n",
        refusal(3, 11),
    );
    case(
        "no hold",
        Planner,
        b"board=7\ntasks=1\nswitch=0\ntask=5\nperiod=10\ndeadline=10\nworst=10\nbest=10\nalpha=1000\nbeta=10000\n",
        refusal(1, 11),
    );
}

// The same row under a switch.
fn switch_cases() {
    case(
        "worst + switch = period = 10",
        Planner,
        b"board=7\ntasks=1\nswitch=3\ntask=5\nperiod=10\ndeadline=10\nworst=7\nbest=7\nalpha=1000\nbeta=10000\nhold=0\npoints=0\n",
        Ok(b"plan=1\nboard=7\ntasks=1\nrank=1\ntask=5\nbest=7\nworst=10\njitter=3\nmargin=0\n"),
    );
    case(
        "the document's rows under a switch of 1, reviewed",
        Reviewer,
        SWITCHED,
        Ok(SWITCHED_PLAN),
    );
    case(
        "worst + switch = period + 1",
        Planner,
        b"board=7\ntasks=1\nswitch=3\ntask=5\nperiod=10\ndeadline=10\nworst=8\n",
        refusal(4, 7),
    );
    case(
        "switch = 1001",
        Planner,
        b"board=7\ntasks=1\nswitch=1001\n",
        refusal(3, 3),
    );
    case(
        "no switch",
        Planner,
        b"board=7\ntasks=1\ntask=5\nperiod=10\ndeadline=10\nworst=10\nbest=10\nalpha=1000\nbeta=10000\nhold=0\npoints=0\n",
        refusal(1, 3),
    );
}

// One task whose line refuses it, with other curves.
fn curve_cases() {
    case(
        "a curve that permits a third of a tick more",
        Planner,
        b"board=7\ntasks=1\nswitch=0\ntask=5\nperiod=10\ndeadline=10\nworst=10\nbest=7\nalpha=1000\nbeta=0\nhold=0\npoints=2\ndelay=6\nallow=4\ndelay=9\nallow=3\n",
        Ok(b"plan=1\nboard=7\ntasks=1\nrank=1\ntask=5\nbest=7\nworst=10\njitter=3\nmargin=666\n"),
    );
    case(
        "the same a tick lower, reviewed",
        Reviewer,
        b"board=7\ntasks=1\nswitch=0\ntask=5\nperiod=10\ndeadline=10\nworst=10\nbest=7\nalpha=1000\nbeta=0\nhold=0\npoints=2\ndelay=6\nallow=3\ndelay=9\nallow=2\nrank=5\n",
        Ok(b"plan=1\nboard=7\ntasks=1\nrank=1\ntask=5\nbest=7\nworst=10\njitter=3\nmargin=-334\n"),
    );
    case(
        "E past the last delay",
        Planner,
        b"board=7\ntasks=1\nswitch=0\ntask=5\nperiod=10\ndeadline=10\nworst=10\nbest=7\nalpha=1000\nbeta=20000\nhold=0\npoints=1\ndelay=6\nallow=10\n",
        refusal(8, 0),
    );
    case(
        "a delay not above the one before it",
        Planner,
        b"board=7\ntasks=1\nswitch=0\ntask=5\nperiod=10\ndeadline=10\nworst=10\nbest=7\nalpha=1000\nbeta=0\nhold=0\npoints=2\ndelay=6\nallow=4\ndelay=6\n",
        refusal(11, 15),
    );
    case(
        "an allow above the one before it",
        Planner,
        b"board=7\ntasks=1\nswitch=0\ntask=5\nperiod=10\ndeadline=10\nworst=10\nbest=7\nalpha=1000\nbeta=0\nhold=0\npoints=2\ndelay=6\nallow=4\ndelay=9\nallow=5\n",
        refusal(11, 16),
    );
}

// The planner on the two rows with the rest of a text.
fn overrun(name: &str, rest: &[u8], expected: Expected) {
    parts(name, Planner, OVERRUN, rest, expected);
}

fn deadline_cases() {
    overrun(
        "W past its period, at its deadline",
        b"deadline=118\nworst=62\nbest=40\nalpha=2000\nbeta=196000\nhold=0\npoints=0\n",
        Ok(OVERRUN_PLAN),
    );
    overrun(
        "the same with deadline = W - 1",
        b"deadline=117\nworst=62\nbest=40\nalpha=2000\nbeta=196000\nhold=0\npoints=0\n",
        refusal(8, 0),
    );
    overrun(
        "the same with deadline = period",
        b"deadline=100\nworst=62\nbest=40\nalpha=2000\nbeta=196000\nhold=0\npoints=0\n",
        refusal(8, 0),
    );
    case(
        "deadline = worst - 1",
        Planner,
        b"board=7\ntasks=1\nswitch=0\ntask=5\nperiod=10\ndeadline=9\nworst=10\nbest=10\nalpha=1000\nbeta=10000\nhold=0\npoints=0\n",
        refusal(8, 0),
    );
    case(
        "deadline = worst - 1, reviewed",
        Reviewer,
        b"board=7\ntasks=1\nswitch=0\ntask=5\nperiod=10\ndeadline=9\nworst=10\nbest=10\nalpha=1000\nbeta=10000\nhold=0\npoints=0\nrank=5\n",
        refusal(7, 1),
    );
    case(
        "deadline = 0",
        Planner,
        b"board=7\ntasks=1\nswitch=0\ntask=5\nperiod=10\ndeadline=0\n",
        refusal(3, 6),
    );
    case(
        "no deadline",
        Planner,
        b"board=7\ntasks=1\nswitch=0\ntask=5\nperiod=10\nworst=10\nbest=10\nalpha=1000\nbeta=10000\nhold=0\npoints=0\n",
        refusal(1, 6),
    );
}

// Late by a w(q) that is not found, and the same load in a tenth of the ticks.
fn full_cases() {
    parts(
        "a load of 1, w(2) = 1050000",
        Reviewer,
        FULL,
        b"rank=1\nrank=2\n",
        refusal(7, 2),
    );
    parts(
        "the other order",
        Reviewer,
        FULL,
        b"rank=2\nrank=1\n",
        refusal(7, 2),
    );
    case("the same rows planned", Planner, FULL, refusal(8, 0));
    case(
        "the same at a tenth, w(2) = 105000",
        Reviewer,
        TENTH,
        Ok(TENTH_PLAN),
    );
}

fn interval_cases() {
    case(
        "a task that fits as the lowest is taken back",
        Planner,
        TAKEN_BACK,
        Ok(TAKEN_BACK_PLAN),
    );
    parts(
        "six jobs pending at once",
        Reviewer,
        PENDING,
        b"deadline=54\nworst=4\nbest=4\nalpha=1000\nbeta=200000000000\nhold=0\npoints=0\nrank=1\nrank=2\n",
        Ok(PENDING_PLAN),
    );
    parts(
        "the same with deadline = W - 1 = 53",
        Reviewer,
        PENDING,
        b"deadline=53\nworst=4\nbest=4\nalpha=1000\nbeta=200000000000\nhold=0\npoints=0\nrank=1\nrank=2\n",
        refusal(7, 2),
    );
    case(
        "worst = period = deadline = 600000",
        Planner,
        b"board=7\ntasks=1\nswitch=0\ntask=5\nperiod=600000\ndeadline=600000\nworst=600000\nbest=600000\nalpha=1000\nbeta=600000000\nhold=0\npoints=0\n",
        Ok(
            b"plan=1\nboard=7\ntasks=1\nrank=1\ntask=5\nbest=600000\nworst=600000\njitter=0\nmargin=0\n",
        ),
    );
    parts(
        "W past its period over a row with a hold",
        Reviewer,
        HELD,
        b"deadline=122\nworst=62\nbest=40\nalpha=1000\nbeta=1000000\nhold=0\npoints=0\ntask=23\nperiod=1000\ndeadline=1000\nworst=5\nbest=5\nalpha=1000\nbeta=1000000\nhold=5\npoints=0\nrank=21\nrank=22\nrank=23\n",
        Ok(HELD_PLAN),
    );
    parts(
        "the same with deadline = W - 1 = 121",
        Reviewer,
        HELD,
        b"deadline=121\nworst=62\nbest=40\nalpha=1000\nbeta=1000000\nhold=0\npoints=0\ntask=23\nperiod=1000\ndeadline=1000\nworst=5\nbest=5\nalpha=1000\nbeta=1000000\nhold=5\npoints=0\nrank=21\nrank=22\nrank=23\n",
        refusal(7, 2),
    );
}

fn main() {
    planner_cases();
    reviewer_cases();
    line_cases();
    row_plans();
    row_refusals();
    hold_cases();
    switch_cases();
    curve_cases();
    deadline_cases();
    full_cases();
    interval_cases();
}
