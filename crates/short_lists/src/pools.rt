// The count in the pool rule, for each frame of a schedule, against the count in rules.rt.
ghost use Rattle.std.specs.Prelude.{◌<◌, ◌≤◌, length};
ghost use Rattle.header.specs.Limits.{max_frames};

use crate::report::{Report, Topic};
use crate::rules;
use crate::rules::Count;
use crate::tickets::{Case, FRAMES};
use pool_counts::backlog;
use std::io;

// The product's count for frame i.
fn product_count(case: &Case, plan: &[u16], i: usize) -> Count
    requires { (i < length plan.now) × (length plan.now ≤ max_frames) }
{
    let found = backlog::backlog(case.is_save(), plan, i, u16::from(case.pool));
    Count {
        count: found.count,
        looked: found.looked,
    }
}

// A difference is written out with the schedule and the frame's position.
pub(crate) fn compare_counts<P: Print>(
    report: &mut Report<'_, P>,
    case: &Case,
    cycles: &[u16; FRAMES],
) -> io::Result<()> {
    let plan = &cycles[..case.frames];
    for i in 0..case.frames {
        let wanted = rules::own_count(case, cycles, i);
        let found = product_count(case, plan, i);
        report.compare(Topic::PoolCounts, (plan, i), wanted, found)?;
    }
    Ok(())
}
