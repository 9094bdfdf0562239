// The cycles of a plan, one after the other: the reads of its frames in list order, then its end.
ghost use Rattle.std.specs.Prelude.{◌≡◌, ◌-◌, ◌≤◌, min, ltb, length};
ghost use Rattle.std.specs.List.{filter, reduce};
ghost use Rattle.header.specs.Limits.{max_frames};
ghost use Rattle.plan_run.specs.Cycles.{ReadsMade, CyclesMade, Next};

use counting::{Cycle, Position};
use dock::Step;
use run_progress::Progress;

// A number after all cycles, which have 16 bits.
const AFTER_ALL: u32 = 65536;

// The first of some cycles that is after t. A cycle that is not counts as one after all, so that no turn branches and the compiler takes several cycles
// at once; with `filter` and `min` it takes one after the other.
fn first_after(cycles: &[u16], t: Cycle) -> Option<u16>
    ensures { result ≡ reduce min (filter (λ c. ltb t.0 c) cycles.now) }
{
    let mut next = AFTER_ALL;
    for c in cycles {
        let after = if t.0 < *c { u32::from(*c) } else { AFTER_ALL };
        next = next.min(after);
    }
    u16::try_from(next).ok()
}

// A plan for as many frames as a list can have.
#[derive(Clone, Copy)]
pub(crate) struct Plan<'a> {
    pub cycles: &'a [u16],
    ghost few: { length cycles.now ≤ max_frames },
}

impl Plan<'_> {
    // The reads of a cycle, in list order.
    fn reads(self, p: Progress, cycle: Cycle, memory: &mut [u8]) -> Progress
        requires { 1 ≤ cycle.0 }
        ensures { ReadsMade self.entry.cycles.now cycle.0 (length self.entry.cycles.now) p memory.old result memory.new }
    {
        let mut q = p;
        for (i, c) in self.cycles.iter().enumerate() {
            if *c == cycle.0 {
                // i is below 4,096: a `try_from` would answer a Result that is never an Err
                q = run_progress::track(q, Step::Read(Position(i as u16)), memory);
            }
        }
        q
    }

    // The first cycle after t that a frame has.
    fn next_cycle(self, t: Cycle) -> Option<u16>
        ensures { result ≡ reduce min (filter (λ c. ltb t.0 c) self.entry.cycles.now) }
    {
        first_after(self.cycles, t)
    }

    // The same, where `next` is the first one after the cycle before t.
    fn next_after(self, t: Cycle, next: Option<u16>) -> Option<u16>
        requires { Next self.cycles.now (t.0 - 1) next }
        ensures { Next self.entry.cycles.now t.0 result }
    {
        if next == Some(t.0) {
            self.next_cycle(t)
        } else {
            next
        }
    }

    // One cycle: the reads of its frames, which are looked for only where `next` says that there are any, and its end.
    fn one_cycle(self, p: Progress, cycle: Cycle, next: Option<u16>, memory: &mut [u8]) -> Progress
        requires { (1 ≤ cycle.0) × Next self.cycles.now (cycle.0 - 1) next }
        ensures { CyclesMade self.entry.cycles.now (cycle.0 - 1) cycle.0 p memory.old result memory.new }
    {
        let mut q = p;
        if next == Some(cycle.0) {
            q = self.reads(q, cycle, memory);
        }
        run_progress::track(q, Step::End, memory)
    }

    // The cycles of a plan from the first to `last`.
    pub(crate) fn cycles_to(self, p: Progress, last: Cycle, memory: &mut [u8]) -> Progress
        ensures { CyclesMade self.entry.cycles.now 0 last.0 p memory.old result memory.new }
    {
        let mut next = self.next_cycle(Cycle(0));
        let mut q = p;
        for t in 0..last.0 {
            let cycle = Cycle(t + 1);
            q = self.one_cycle(q, cycle, next, memory);
            next = self.next_after(cycle, next);
        }
        q
    }
}
