// The verdict on a plan: its first fault, or T and the peak.
ghost use Rattle.std.specs.Prelude.{◌≡◌, true, ◌≤◌, length};
ghost use Rattle.header.specs.Limits.{max_frames};
ghost use Rattle.pool_counts.specs.Pools.{roomy_of, peak_of};
ghost use Rattle.pool_table.specs.Table.{Low};
ghost use Rattle.plan_faults.specs.Faults.{Checking};
ghost use Rattle.checker.specs.Check.{answer_of, verdict_on};
ghost use Rattle.checker.specs.Completed.{completed};

use crate::Verdict;
use counting::Cycle;
use header::limits;
use plan_faults::Found;
use pool_counts::Room;

// The fault that was found; or valid, with T and the peak.
fn complete(found: Option<Found>, top: Cycle, peak: u16) -> Verdict
    ensures { result ≡ completed found top.0 peak }
{
    match found {
        None => Verdict::Valid(top, peak),
        Some(Found::CycleMissing(p)) => Verdict::NoCycle(p),
        Some(Found::CardShared(p)) => Verdict::SharedCard(p),
        Some(Found::PoolOverfull(p)) => Verdict::Overfull(p),
    }
}

// The pools of a plan: from a table where no cycle is over 4,096, as in our own plans, and else counted. `low` picks one of the two, once a call.
// `save` is handed on, as the two calls take it: docs/PROMISES.md names them, and their clauses speak of it (`roomy_of save`).
fn pools(save: bool, low: bool, plan: &[u16], top: Cycle, m: u16) -> Room
    requires { (length plan.now ≤ max_frames) × (1 ≤ m) × (low ≡ true → Low plan.now top.0) }
    ensures roomy { result.roomy ≡ roomy_of save m plan.now }
    ensures peak { result.roomy ≡ length plan.now → result.peak ≡ peak_of save plan.now }
{
    if low {
        return pool_table::pools(save, plan, top, m);
    }
    pool_counts::plans::pools(save, plan, m)
}

// The verdict on any plan. Cards and plan are two slices, and `save` is a flag, as plan_faults and both kinds of `pools` take them. `1 ≤ m` holds of
// each ticket's pool; `Header.pool` is a u16, since a text that is refused may have 0 there, so a NonZeroU16 would come by an Option that is never None.
pub(crate) fn verdict(save: bool, cards: &[u8], plan: &[u16], m: u16) -> Verdict
    requires { Checking cards.now plan.now × (1 ≤ m) }
    ensures { result ≡ answer_of (verdict_on save m cards.now plan.now) }
{
    let top = schedule::cycles_in(plan);
    let low = top.0 <= limits::MAX_FRAMES;
    let room = pools(save, low, plan, top, m);
    let clear = plan_faults::clear(save, low, cards, plan, m, room.roomy);
    let found = plan_faults::first_fault(save, cards, plan, m, clear, room.roomy);
    complete(found, top, room.peak)
}
