// Whose each of the first jobs of a run is, in order of release: the owners of the lengths.
ghost use Rattle.std.specs.Prelude.{◌≤◌, length};
ghost use Rattle.watch_runs.specs.inside.Owners.{EarliestIs, Mergeable, Owns, SlotIn, Sought, NextSlot};

use super::steps::Rank;
use rows::MAX_TASKS;

// The rank of the earliest of the next releases; of several on one tick, the highest. A loop and not `min_by_key`: tried,
// and the proof did not close: no lemma of the library says which of equal keys it takes.
fn earliest(nexts: &[u64]) -> usize
    requires { 1 ≤ length nexts.now }
    ensures { EarliestIs nexts.now result }
{
    let mut r = 0;
    for j in 1..nexts.len() {
        if nexts[j] < nexts[r] {
            r = j;
        }
    }
    r
}

// The rank of each of the first jobs, as many as there are owners to fill: again and again the earliest release is
// taken, and the next of its rank comes a period later.
pub fn fill_owners(owners: &mut [usize], ranks: &[Rank])
    requires { Mergeable owners.old ranks.now }
    ensures { Owns owners.new ranks.now }
{
    let mut releases = [0u64; MAX_TASKS];
    let nexts = &mut releases[..ranks.len()];
    // By the index j: a `zip` is no plainer, and its invariant is over two iterators in place of one index.
    for (j, next) in nexts.iter_mut().enumerate() {
        *next = ranks[j].offset;
    }
    for owner in owners.iter_mut() {
        let r = earliest(nexts);
        *owner = r;
        nexts[r] += ranks[r].period;
    }
}

// The first slot of a rank among the owners, from a slot on; slots are counted from the first, so a part of the owners with
// no index beside it would not do.
pub fn seek(owners: &[usize], from: usize, rank: usize) -> Option<usize>
    ensures { Sought owners.now from rank result }
{
    (from..owners.len()).find(|m| owners[*m] == rank)
}

// The next slot of a rank after one of its own; after none there is none.
pub fn next_slot(owners: &[usize], slot: Option<usize>, rank: usize) -> Option<usize>
    requires { SlotIn (length owners.now) slot }
    ensures { NextSlot owners.now slot rank result }
{
    let slot = slot?;
    seek(owners, slot + 1, rank)
}
