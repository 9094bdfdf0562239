// A run followed step by step: the dock, whether all frames are handed over, the cycles needed for that, and the peak.
#![tactic(auto)]

ghost use Rattle.std.specs.Prelude.{◌≡◌, cond, not, ◌&&◌};
ghost use Rattle.schedule.specs.Drive.{is_end};
ghost use Rattle.dock.specs.State.{step_of};
ghost use Rattle.run_progress.specs.Progress.{Tracked, at_start};

use dock::{Dock, Step};

// The dock after some steps; the cycles needed to hand all frames over, once that is done; and the peak.
#[derive(Clone, Copy)]
pub struct Progress {
    pub dock: Dock,
    pub needed: Option<u32>,
    pub peak: u16,
}

// The frames that a step finds held, if it counts for the peak: an end of a cycle does, but for one after the list of steps is broken off; else 0.
fn held_at_end(dock: Dock, step: Step) -> u16
    ensures { result ≡ cond (is_end (step_of step) && not dock.broken) dock.holding 0 }
{
    if matches!(step, Step::End) && !dock.broken {
        dock.holding
    } else {
        0
    }
}

// One step, with the outcome and the peak kept; a step that is refused leaves the dock as it was. Cycles needed are counted up to 4,294,967,295, as
// the dock counts those ended.
pub fn track(p: Progress, step: Step, memory: &mut [u8]) -> Progress
    ensures { Tracked p (step_of step) memory.old result memory.new }
{
    let dock = dock::drive(p.dock, step, memory).unwrap_or(p.dock);
    let complete = dock.frames <= dock.delivered;
    Progress {
        dock,
        needed: p.needed.or(complete.then_some(dock.ended)),
        peak: p.peak.max(held_at_end(p.dock, step)),
    }
}

// Before the first step: with no frames a run is complete from the start.
pub fn at_start(frames: u16, pool: u16) -> Progress
    ensures { result ≡ at_start pool frames }
{
    Progress {
        dock: dock::empty(pool, frames),
        needed: (frames == 0).then_some(0),
        peak: 0,
    }
}
