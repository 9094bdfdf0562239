// greedy_writing in one pass over the list: a frame's cycle is known when the frame enters. The theory that makes one pass enough is in
// proofs/: Assigned, Due, Shown and Process.
#![tactic(auto)]

ghost use Rattle.std.specs.Prelude.{◌≡◌, ◌+◌, ◌≤◌, ◌<◌, max, length};
ghost use Rattle.header.specs.Limits.{max_cards, max_frames};
ghost use Rattle.counting.specs.Lists.{taken_at};
ghost use Rattle.greedy_pass.specs.Pass.{Asked, Passed};

use counting::Cycle;
use header::limits;

// The cycle at a place of the table of those due. Within the pass a cycle is such a place, so that no turn has to widen it. No place is past
// what a cycle holds: a TryFrom would bring a failure into each turn that never comes.
fn cycle_at(place: usize) -> Cycle
    requires { place ≤ max_frames }
    ensures { result.0 ≡ place }
{
    Cycle(place as u16)
}

// Where the frame stands that is taken k-th, from the front or from the back of a list of n.
fn taken_at(back: bool, n: usize, k: usize) -> usize
    requires { k < n }
    ensures { (result ≡ taken_at back n k) × (result < n) }
{
    if back { n - 1 - k } else { k }
}

// The cycles made when the last frame has entered, and with the closing cycles.
#[derive(Clone, Copy)]
pub struct Cycles {
    pub made: Cycle,
    pub all: Cycle,
}

// Gives each frame of the list, taken from its front or from its back, its cycle of greedy_writing. The direction is a const parameter, so that
// no turn asks for it.
//   due[s]     how many frames have cycle s
//   latest[c]  the cycle of the frame of card c that entered last, 0 for none
//   waiting    how many frames wait in the pool, with `made` cycles made
fn turns<const BACK: bool>(cards: &[u8], m: u16, out: &mut [u16]) -> Cycles
    requires { Asked m cards.now out.old }
    ensures { Passed m BACK cards.now out.old out.new result.made.0 result.all.0 }
{
    let mut due = [0u16; limits::FRAMES + 1];
    let mut latest = [0u16; limits::CARDS];
    let mut made: usize = 0;
    let mut waiting: u16 = 0;
    let n = cards.len();
    for k in 0..n {
        if m <= waiting {
            made += 1;
            waiting -= due[made];
        }
        let i = taken_at(BACK, n, k);
        let c = usize::from(cards[i]);
        let u = made.max(usize::from(latest[c])) + 1;
        let s = cycle_at(u);
        latest[c] = s.0;
        due[u] += 1;
        out[i] = s.0;
        waiting += 1;
    }
    let last = latest.iter().copied().max().unwrap_or(0);
    Cycles {
        made: cycle_at(made),
        all: Cycle(last),
    }
}

// The pass from the front of the list or, where `back` says so, from its back.
// The flag stays: docs/DECISIONS.md names this call, and its clauses speak of `back`.
pub fn pass(cards: &[u8], m: u16, back: bool, out: &mut [u16]) -> Cycles
    requires { Asked m cards.now out.old }
    ensures { Passed m back cards.now out.old out.new result.made.0 result.all.0 }
{
    if back {
        turns::<true>(cards, m, out)
    } else {
        turns::<false>(cards, m, out)
    }
}
