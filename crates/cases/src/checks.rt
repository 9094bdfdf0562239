// Plans that anyone made: the checker's verdict on each, and its run on the dock.
// A plan is written with a digit for each cycle; K is 4,096, M is 4,097, and L the largest number, 65,535.
use crate::{output, tables};
use checker::Verdict;
use counting::Cycle;
use plan_run::Run;
use refusals::Refusal;
use std::io;

fn at_fault(rt: &impl Print, name: &str, position: u16) -> io::Result<()> {
    print!(rt; "   {name:14}{position:6}{:12}", "")
}

// The verdict; the position at fault, or the number of a refusal; T and the peak.
pub(crate) fn verdict(rt: &impl Print, v: Result<Verdict, Refusal>) -> io::Result<()> {
    match v {
        Ok(Verdict::Valid(cycles, peak)) => print!(rt;
            "   valid               {:6}{peak:6}",
            cycles.0
        ),
        Ok(Verdict::NoCycle(p)) => at_fault(rt, "cycle 0", p.0),
        Ok(Verdict::SharedCard(p)) => at_fault(rt, "shares a card", p.0),
        Ok(Verdict::Overfull(p)) => at_fault(rt, "overfull", p.0),
        Err(refusal) => at_fault(rt, "refused", u16::from(u8::from(refusal))),
    }
}

// The cycles needed, none where the run is unfinished.
fn outcome(rt: &impl Print, needed: Option<Cycle>) -> io::Result<()> {
    match needed {
        Some(needed) => print!(rt; "   complete  {:5}", needed.0),
        None => rt.print("   unfinished     "),
    }
}

// The outcome; frames handed over, cycles ended, peak; whether it broke off.
fn whole_run(rt: &impl Print, r: Run) -> io::Result<()> {
    outcome(rt, r.needed)?;
    let broken = output::yes_or_no(r.broken);
    print!(rt; "{:6}{:6}{:6}{broken:>8}", r.delivered, r.ended.0, r.peak)
}

// A plan's run, or the number of a refusal.
pub(crate) fn run(rt: &impl Print, a: Result<Run, Refusal>) -> io::Result<()> {
    match a {
        Ok(r) => whole_run(rt, r),
        Err(refusal) => print!(rt; "   refused   {:5}", u8::from(refusal)),
    }
}

pub(crate) fn checked(rt: &impl Print, t: &[u8], text: &[u8]) -> io::Result<()> {
    if text.len() <= 4 {
        let mut buffer = [0u16; 4];
        let plan = tables::read_numbers(text, &mut buffer, tables::number);
        output::ticket(rt, t)?;
        output::list(rt, plan, 4, 6)?;
        verdict(rt, checker::check(t, plan))?;
        run(rt, plan_run::run_plan(t, plan))?;
    }
    Ok(())
}
