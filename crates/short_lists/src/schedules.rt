// The search through all schedules of a list: which are correct, with how few cycles; and on the way the checker's verdict on each, and whether
// a read's is as its peak says. For lists of up to 4 frames also its verdict on each with late cycles, the count in the pool rule of each frame,
// and each one's run on the dock.
use crate::greedy::Schedule;
use crate::report::{Report, Topic};
use crate::tickets::{FRAMES, Mode, Ticket};
use crate::{lists, pools, rules, runs, verdicts};
use std::io;

// The smaller of two numbers, where there are any.
pub(crate) fn fewer<T: Ord + Drop>(a: Option<T>, b: Option<T>) -> Option<T> {
    match (a, b) {
        (Some(x), Some(y)) => Some(x.min(y)),
        (Some(x), None) => Some(x),
        (None, y) => y,
    }
}

// The search at one schedule, and what is compared of it. Answers its number of cycles if it is correct.
fn compare_one<P: Print>(
    report: &mut Report<'_, P>,
    ticket: &Ticket,
    cycles: &[u16; FRAMES],
) -> io::Result<Option<u16>> {
    let case = &ticket.case;
    let judged = rules::own_verdict(case, cycles);
    verdicts::compare_verdict(report, ticket, cycles, &judged)?;
    verdicts::compare_peak(report, ticket, cycles)?;
    if case.frames < 5 {
        verdicts::compare_late(report, ticket, cycles, &judged, verdicts::far)?;
        verdicts::compare_late(report, ticket, cycles, &judged, verdicts::close)?;
        pools::compare_counts(report, case, cycles)?;
        if case.mode == Mode::Read {
            runs::compare_run(report, ticket, cycles, judged.cycles)?;
        }
    }
    Ok(judged.correct())
}

// All schedules with cycles from 0 to n; no order of the frames is assumed. Answers the fewest cycles of a correct one.
fn search<P: Print>(report: &mut Report<'_, P>, ticket: &Ticket) -> io::Result<Option<u16>> {
    let n = ticket.case.frames;
    // There is no From of usize for u64.
    let choices = n as u64 + 1;
    let mut fewest = None;
    for number in 0..lists::how_many(n, choices) {
        let cycles = lists::numbered(number, choices).map(u16::from);
        fewest = fewer(fewest, compare_one(report, ticket, &cycles)?);
    }
    Ok(fewest)
}

// For a read or a save of up to 5 frames: T against the fewest cycles of a correct schedule; the plan is a correct schedule, with T as its
// largest cycle; and its run.
pub(crate) fn compare_fewest<P: Print>(
    report: &mut Report<'_, P>,
    ticket: &Ticket,
    plan: &Schedule,
) -> io::Result<()> {
    if 5 < ticket.case.frames || ticket.case.mode == Mode::SaveAndKeep {
        return Ok(());
    }
    let t = Some(plan.made);
    let fewest = search(report, ticket)?;
    report.compare(Topic::Fewest, "the list", fewest, t)?;
    let judged = rules::own_verdict(&ticket.case, &plan.cycles);
    report.compare(Topic::Fewest, "the plan", judged.correct(), t)?;
    runs::compare_run(report, ticket, &plan.cycles, judged.cycles)
}
