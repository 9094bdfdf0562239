// What a run answers, from what is kept of it.
// Its casts to 16 bits lose nothing, as the premises say: a `try_from` would answer a Result that is never an Err.
ghost use Rattle.std.specs.Prelude.{◌≡◌, ◌≤◌, IfSome};
ghost use Rattle.run_progress.specs.Progress.{outcome_in};
ghost use Rattle.plan_run.specs.Run.{needed_of};
ghost use Rattle.plan_run.specs.Cycles.{last_cycle, answered};

use crate::Run;
use counting::Cycle;
use run_progress::Progress;

// The cycles needed, of which a plan's run has no more than 16 bits count.
fn needed_of(needed: Option<u32>) -> Option<Cycle>
    requires { IfSome needed (λ n. n ≤ last_cycle) }
    ensures { result ≡ needed_of (outcome_in needed) }
{
    needed.map(|n| Cycle(n as u16))
}

pub(crate) fn answer(p: Progress) -> Run
    requires { (p.dock.ended ≤ last_cycle) × IfSome p.needed (λ n. n ≤ last_cycle) }
    ensures { result ≡ answered p }
{
    let dock = p.dock;
    Run {
        broken: dock.broken,
        delivered: dock.delivered,
        ended: Cycle(dock.ended as u16),
        needed: needed_of(p.needed),
        peak: p.peak,
    }
}
