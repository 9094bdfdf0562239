// The checker's verdict on a schedule, against the rules; and on the same with late cycles, for which the checker has another way.
use crate::report::{Report, Topic};
use crate::rules::{Fault, Judged};
use crate::tickets::{Case, FRAMES, Mode, Ticket};
use crate::{bench, rules};
use std::io;

// A verdict: T and the peak of a valid plan, or a fault and its position.
#[derive(Clone, Copy, Debug, PartialEq, Eq)]
enum Verdict {
    Valid(u16, usize),
    Faulty(Fault, usize),
}

// The checker's verdict on a plan, or the number of a refusal.
fn checked(ticket: &[u8], plan: &[u16]) -> Result<Verdict, u8> {
    let verdict = match checker::check(ticket, plan).map_err(u8::from)? {
        checker::Verdict::Valid(t, peak) => Verdict::Valid(t.0, usize::from(peak)),
        checker::Verdict::NoCycle(p) => Verdict::Faulty(Fault::NoCycle, usize::from(p.0)),
        checker::Verdict::SharedCard(p) => Verdict::Faulty(Fault::SharedCard, usize::from(p.0)),
        checker::Verdict::Overfull(p) => Verdict::Faulty(Fault::Overfull, usize::from(p.0)),
    };
    Ok(verdict)
}

// The same list with a buffer for every frame.
fn roomy(case: &Case) -> Case {
    let mut all = *case;
    // It fits: `try_from` would be a Result that is never an Err.
    all.pool = case.frames as u8;
    all
}

// The verdict that the rules give, with T as it is to be told. The peak of a read is that of the plan's run on a dock with a buffer for every
// frame; that of a save is 0.
fn wanted(case: &Case, cycles: &[u16; FRAMES], judged: &Judged, t: u16) -> Verdict {
    match judged.fault {
        Some((fault, position)) => Verdict::Faulty(fault, position),
        None => match case.mode {
            Mode::Read => Verdict::Valid(t, bench::run(&roomy(case), cycles, judged.cycles).peak),
            Mode::Save | Mode::SaveAndKeep => Verdict::Valid(t, 0),
        },
    }
}

pub(crate) fn compare_verdict<P: Print>(
    report: &mut Report<'_, P>,
    ticket: &Ticket,
    cycles: &[u16; FRAMES],
    judged: &Judged,
) -> io::Result<()> {
    report.count_schedule(judged.fault.map(|(fault, _)| fault));
    let plan = &cycles[..ticket.case.frames];
    let wanted = wanted(&ticket.case, cycles, judged, judged.cycles);
    report.compare(
        Topic::Verdicts,
        plan,
        Ok(wanted),
        checked(ticket.bytes(), plan),
    )
}

// Request 2026-05: a read plan without cycle 0 or a shared card and cycle, which are all its faults where every frame has a buffer, is valid exactly
// where the peak of its run there is within the pool.
pub(crate) fn compare_peak<P: Print>(
    report: &mut Report<'_, P>,
    ticket: &Ticket,
    cycles: &[u16; FRAMES],
) -> io::Result<()> {
    let case = &ticket.case;
    if case.mode != Mode::Read {
        return Ok(());
    }
    let all = roomy(case);
    let judged = rules::own_verdict(&all, cycles);
    if judged.fault.is_some() {
        return Ok(());
    }
    let peak = bench::run(&all, cycles, judged.cycles).peak;
    let plan = &cycles[..case.frames];
    let valid = matches!(checked(ticket.bytes(), plan), Ok(Verdict::Valid(_, _)));
    report.compare(Topic::Peaks, plan, peak <= usize::from(case.pool), valid)
}

// A cycle up to 4 as a late one, over 4,096: 8,000 times as large, so that cycles are far apart. 0 stays 0, and of two cycles the same one is
// larger as before.
pub(crate) fn far(cycle: u16) -> u16 {
    cycle % 5 * 8000
}

// The same by 65,531 later, so that cycles are close and the last is 65,535.
pub(crate) fn close(cycle: u16) -> u16 {
    match cycle % 5 {
        0 => 0,
        c => c + 65531,
    }
}

// The verdict on a schedule of up to 4 frames with late cycles: only T is another.
pub(crate) fn compare_late<P: Print, F: Fn(u16) -> u16>(
    report: &mut Report<'_, P>,
    ticket: &Ticket,
    cycles: &[u16; FRAMES],
    judged: &Judged,
    late: F,
) -> io::Result<()>
    requires { F.IsAlwaysCallable late }
{
    let late_cycles = cycles.map(|cycle| late(cycle));
    let plan = &late_cycles[..ticket.case.frames];
    let wanted = wanted(&ticket.case, cycles, judged, late(judged.cycles));
    report.compare(
        Topic::LateVerdicts,
        plan,
        Ok(wanted),
        checked(ticket.bytes(), plan),
    )
}
