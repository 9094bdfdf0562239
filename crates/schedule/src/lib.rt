// The length of a schedule. The theory of schedules and of the dock is in specs/ and proofs/.
#![tactic(auto)]

ghost use Rattle.std.specs.Prelude.{◌≡◌};
ghost use Rattle.schedule.specs.Schedule.{cycles_in};

use counting::Cycle;

// The number of cycles of a schedule: its largest cycle number, 0 for no frames.
pub fn cycles_in(plan: &[u16]) -> Cycle
    ensures { result.0 ≡ cycles_in plan.now }
{
    Cycle(plan.iter().copied().max().unwrap_or(0))
}
