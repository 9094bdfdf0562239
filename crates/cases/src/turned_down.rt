// Refused tickets: one line for each, with the number that every call gives and what stands beside it.
use crate::{docks, output, tickets};
use counting::Position;
use plain_answers::tickets::refusal_number;
use refusals::Refusal;
use std::io;

// The number of a call's refusal, 0 for none.
fn number<T: Copy>(answer: Result<T, Refusal>) -> u8 {
    refusal_number(answer.err())
}

// A call's refusal, 0 for none, and what it answers, 0 beside a refusal.
pub(crate) fn numbers<T: Copy + Default>(answer: Result<T, Refusal>) -> (u8, T) {
    (number(answer), answer.unwrap_or_default())
}

// The reader's calls: heading, parse, refusal, line_refusal; the bytes of the line; the first cards of parse; the first counts.
fn reader(rt: &impl Print, t: &[u8], p: Position) -> io::Result<()> {
    let ticket = ticket::parse(t);
    let numbers = [
        number(header::heading(t)),
        number(ticket),
        refusal_number(ticket::refusal(t)),
        refusal_number(ticket::line_refusal(t, p)),
    ];
    output::list(rt, &numbers, 4, 8)?;
    print!(rt; "{:6}", ticket::line(t, p).len())?;
    output::list(rt, &tickets::cards(ticket), 2, 3)?;
    output::list(rt, &ticket::counts(t), 2, 3)
}

// The calls that use a ticket: plan, check, run_plan, start; the buffer, the memory and the dock afterwards.
fn users(
    rt: &impl Print,
    t: &[u8],
    plan: &[u16],
    buffer: &mut [u16],
    memory: &mut [u8],
) -> io::Result<()> {
    let planned = number(planner::plan(t, buffer));
    let checked = number(checker::check(t, plan));
    let ran = number(plan_run::run_plan(t, plan));
    let started = dock_start::start(t, memory);
    print!(rt; "{planned:6}{checked:6}{ran:6}{:6}", number(started))?;
    output::list(rt, buffer, 3, 3)?;
    output::list(rt, memory, 3, 3)?;
    docks::numbers(rt, docks::started(started), 3)
}

// Every call, with a position, a buffer, a plan and memory that suit three frames.
pub(crate) fn refused(rt: &impl Print, t: &[u8]) -> io::Result<()> {
    output::ticket(rt, t)?;
    reader(rt, t, Position(0))?;
    users(rt, t, &[1u16, 2, 2], &mut [9u16; 3], &mut [7u8; 3])
}

// Every call, with position 3, and a buffer, a plan and memory of one place.
pub(crate) fn too_short(rt: &impl Print, t: &[u8]) -> io::Result<()> {
    output::ticket(rt, t)?;
    reader(rt, t, Position(3))?;
    users(rt, t, &[1u16], &mut [9u16; 1], &mut [7u8; 1])
}
