// The cycles of a plan whose cycles are up to 4,096, along chains: of each cycle its first frame, and of each frame the next one of its
// cycle. A run then looks at each frame once, where src/cycle.rt, which has no limit, looks at the whole plan for each cycle with reads.
ghost use Rattle.std.specs.Prelude.{◌≡◌, ◌≤◌, length};
ghost use Rattle.schedule.specs.Schedule.{cycles_in};
ghost use Rattle.header.specs.Limits.{max_frames};
ghost use Rattle.plan_run.specs.Cycles.{ReadsMade, CyclesMade};
ghost use Rattle.plan_run.specs.Chain.{Small, Unlinked, Chains};

use crate::cycle::Plan;
use counting::{Cycle, Position};
use dock::Step;
use header::limits;
use run_progress::Progress;

// Stands for no position. Tables of Option<u16> would be twice as large, 16 KB more of a device's memory. `first` goes by cycle and `after` by frame,
// so they are no table of pairs.
const NONE: u16 = 65535;

// A plan with its chains: of each cycle its first frame, and of each frame the next one of its cycle.
#[derive(Clone, Copy)]
struct Linked<'a> {
    plan: &'a [u16],
    first: &'a [u16],
    after: &'a [u16],
    ghost small: { Small plan.now },
    ghost chained: { Chains plan.now 0 first.now after.now },
}

// Links the frames, from the last to the first: each becomes the first of its cycle.
fn link(plan: &[u16], first: &mut [u16], after: &mut [u16])
    requires { Small plan.now × Unlinked first.old after.old }
    ensures { Chains plan.now 0 first.new after.new }
{
    for i in (0..plan.len()).rev() {
        let c = usize::from(plan[i]);
        after[i] = first[c];
        // below 4,096: a `try_from` would answer a Result that is never an Err
        first[c] = i as u16;
    }
}

impl Linked<'_> {
    // The reads of a cycle, in list order.
    fn reads(self, p: Progress, cycle: Cycle, memory: &mut [u8]) -> Progress
        requires { cycle.0 ≤ max_frames }
        ensures { ReadsMade self.entry.plan.now cycle.0 (length self.entry.plan.now) p memory.old result memory.new }
    {
        let mut q = p;
        let mut x = self.first[usize::from(cycle)];
        // a while: a turn goes on to the frame that the table names
        while x != NONE {
            q = run_progress::track(q, Step::Read(Position(x)), memory);
            x = self.after[usize::from(x)];
        }
        q
    }

    // The cycles of the plan from the first to `last`: of each the reads of its frames, and its end.
    fn cycles_to(self, p: Progress, last: Cycle, memory: &mut [u8]) -> Progress
        requires { last.0 ≤ max_frames }
        ensures { CyclesMade self.entry.plan.now 0 last.0 p memory.old result memory.new }
    {
        let mut q = p;
        for t in 0..last.0 {
            let cycle = Cycle(t + 1);
            q = self.reads(q, cycle, memory);
            q = run_progress::track(q, Step::End, memory);
        }
        q
    }
}

// All cycles of a plan, along chains where the tables have a place for each. It stays a call of its own, so that its tables are on the stack only after
// the ticket is read, which takes 10 KB itself.
#[inline(never)]
pub(crate) fn all_cycles(p: Progress, plan: Plan, last: Cycle, memory: &mut [u8]) -> Progress
    requires { last.0 ≡ cycles_in plan.cycles.now }
    ensures { CyclesMade plan.entry.cycles.now 0 last.0 p memory.old result memory.new }
{
    if limits::MAX_FRAMES < last.0 {
        return plan.cycles_to(p, last, memory);
    }
    let plan = plan.cycles;
    let mut first = [NONE; limits::FRAMES + 1];
    let mut after = [0u16; limits::FRAMES];
    link(plan, &mut first, &mut after);
    let linked = Linked {
        plan,
        first: &first,
        after: &after,
    };
    linked.cycles_to(p, last, memory)
}
