// A plan's run on the product's dock, against its run on the dock written anew.
use crate::bench;
use crate::report::{Report, Topic};
use crate::tickets::{Case, FRAMES, Ticket};
use std::io;

// A run: whether it broke off, frames handed over, cycles ended, the cycles that it needed if it completed, the peak.
#[derive(Clone, Copy, Debug, PartialEq, Eq)]
struct Run {
    broken: bool,
    delivered: usize,
    ended: usize,
    needed: Option<usize>,
    peak: usize,
}

// The product's run of a plan, or the number of a refusal.
fn product_run(ticket: &[u8], plan: &[u16]) -> Result<Run, u8> {
    let r = plan_run::run_plan(ticket, plan).map_err(u8::from)?;
    Ok(Run {
        broken: r.broken,
        delivered: usize::from(r.delivered),
        ended: usize::from(r.ended),
        needed: r.needed.map(usize::from),
        peak: usize::from(r.peak),
    })
}

fn own_run(case: &Case, cycles: &[u16; FRAMES], t: u16) -> Run {
    let dock = bench::run(case, cycles, t);
    Run {
        broken: dock.broken,
        delivered: dock.delivered,
        ended: dock.ended,
        needed: dock.needed(case),
        peak: dock.peak,
    }
}

// The run of a schedule of t cycles.
pub(crate) fn compare_run<P: Print>(
    report: &mut Report<'_, P>,
    ticket: &Ticket,
    cycles: &[u16; FRAMES],
    t: u16,
) -> io::Result<()> {
    let plan = &cycles[..ticket.case.frames];
    let wanted = own_run(&ticket.case, cycles, t);
    let ran = product_run(ticket.bytes(), plan);
    report.compare(Topic::Runs, plan, Ok(wanted), ran)
}
