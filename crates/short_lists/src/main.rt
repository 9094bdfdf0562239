// The product's compiled code against definitions written anew from document 01 and requests 2026-03 to 2026-05, for all lists of up to 8 frames
// on 3 cards and pools 1 to 4: every schedule of the shorter ones, also with late cycles, the peak of its run, and the count in the pool rule of
// each of its frames; every short list of dock steps; every saver; every pair of short timed lists, joined; and what one frame on another card, or
// one frame more, does to T. Writes what was covered and what differed.
#![tactic(auto)]

ghost use Rattle.std.specs.Prelude.{◌≤◌};

mod bench;
mod greedy;
mod joins;
mod lists;
mod pools;
mod report;
mod rules;
mod runs;
mod saves;
mod schedules;
mod shifts;
mod steps;
mod tickets;
mod verdicts;

use greedy::Schedule;
use report::{Report, Topic};
use std::io;
use tickets::{Card, Case, FRAMES, Mode, Ticket};

// The planner's answer to a ticket: the plan, with the zeros that were lent behind it, and T; or the number of a refusal.
fn planned(ticket: &[u8]) -> Result<Schedule, u8> {
    let mut cycles = [0; FRAMES];
    let t = planner::plan(ticket, &mut cycles).map_err(u8::from)?;
    Ok(Schedule { cycles, made: t.0 })
}

// T of a plan, if there is one.
fn cycles(ticket: &[u8]) -> Option<u16> {
    planned(ticket).ok().map(|plan| plan.made)
}

// What else is compared of a ticket that is planned.
fn compare_plan<P: Print>(
    report: &mut Report<'_, P>,
    ticket: &Ticket,
    plan: &Schedule,
) -> io::Result<()> {
    let case = &ticket.case;
    if case.is_save() {
        saves::compare_saver(report, case)?;
    }
    steps::compare_all(report, ticket, plan.made)?;
    schedules::compare_fewest(report, ticket, plan)?;
    shifts::compare_all(report, case, plan.made)
}

// One ticket: its plan against greedy_writing; then what else is compared of it. After differences that were written out comes their ticket.
fn one_ticket<P: Print>(report: &mut Report<'_, P>, ticket: &Ticket) -> io::Result<()> {
    let before = report.written;
    let plan = planned(ticket.bytes());
    report.compare(
        Topic::Plans,
        "the list",
        Ok(greedy::own_plan(&ticket.case)),
        plan,
    )?;
    if let Ok(plan) = plan {
        compare_plan(report, ticket, &plan)?;
    }
    if report.written != before {
        report.write(ticket.bytes())?;
    }
    Ok(())
}

// A list of so many frames with pools 1 to 4 in the three modes.
fn one_list<P: Print>(
    report: &mut Report<'_, P>,
    frames: usize,
    cards: [Card; FRAMES],
) -> io::Result<()>
    requires { frames ≤ 8 }
{
    report.count_list();
    for pool in 1..5 {
        for mode in [Mode::Read, Mode::Save, Mode::SaveAndKeep] {
            let case = Case {
                mode,
                pool,
                frames,
                cards,
            };
            one_ticket(report, &Ticket::new(case))?;
        }
    }
    Ok(())
}

// All lists of 0 to 8 frames; then the joined ones.
fn main(rt: HostRuntime) -> io::Result<()> {
    let mut report = Report::new(&rt);
    for frames in 0..9 {
        for number in 0..lists::how_many(frames, 3) {
            one_list(
                &mut report,
                frames,
                lists::numbered(number, 3).map(Card::new),
            )?;
        }
    }
    joins::compare_all(&mut report)?;
    report.summary()
}
