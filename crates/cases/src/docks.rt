// The dock: started for a ticket and driven step by step, each step on a line.
// A step is written as it is shown. A comma ends it; ! ends a step with memory of two places.
use crate::{output, tables};
use counting::Position;
use dock::{Dock, Step};
use plain_answers::tickets::refusal_number;
use refusals::Refusal;
use std::io;

// The dock's counts.
pub(crate) fn numbers(rt: &impl Print, d: Dock, width: usize) -> io::Result<()> {
    let ended = d.ended;
    let counts = [d.frames, d.pool, d.delivered, d.holding];
    output::list(rt, &counts, 4, width)?;
    print!(rt; "{ended:>width$}")
}

// The dock that a start gives, one of zeros beside a refusal.
pub(crate) fn started(r: Result<Dock, Refusal>) -> Dock {
    r.unwrap_or(dock::empty(0, 0))
}

// The refusal; the dock's counts, and whether it is broken off, any card has read, card 0 has, and card 1 has; the memory.
fn result(rt: &impl Print, refusal: Option<Refusal>, d: Dock, memory: &[u8]) -> io::Result<()> {
    print!(rt; "{:8}", refusal_number(refusal))?;
    numbers(rt, d, 7)?;
    for yes in [d.broken, d.reading, d.busy[0], d.busy[1]] {
        print!(rt; "{:>8}", output::yes_or_no(yes))?;
    }
    output::list(rt, memory, memory.len(), 5)?;
    rt.print("\n")
}

fn step_of(name: &[u8]) -> Step {
    let position = Position(tables::number_at(name, 5));
    match name.first() {
        Some(b'r') => Step::Read(position),
        Some(b'd') => Step::Drop(position),
        _ => Step::End,
    }
}

fn drive(rt: &impl Print, d: Dock, step: Step, memory: &mut [u8]) -> io::Result<Dock> {
    let r = dock::drive(d, step, memory);
    let after = r.unwrap_or(d);
    result(rt, r.err(), after, memory)?;
    Ok(after)
}

// A step by its name and by the byte that ends it.
fn named(rt: &impl Print, d: Dock, name: &[u8], end: u8, memory: &mut [u8]) -> io::Result<Dock> {
    rt.print("  ")?;
    output::left(rt, name, 30)?;
    let step = step_of(name);
    if end == b'!' {
        return drive(rt, d, step, &mut [77u8; 2]);
    }
    drive(rt, d, step, memory)
}

// What stands after the last end is no step.
fn steps(rt: &impl Print, start: Dock, text: &[u8], memory: &mut [u8]) -> io::Result<()> {
    let mut d = start;
    for part in text.split_inclusive(|b| matches!(*b, b'!'..=b',')) {
        if let Some((end @ b'!'..=b',', name)) = part.split_last() {
            d = named(rt, d, name, *end, memory)?;
        }
    }
    Ok(())
}

// With memory of four places.
pub(crate) fn driven(rt: &impl Print, t: &[u8], text: &[u8]) -> io::Result<()> {
    let mut memory = [77u8; 4];
    output::ticket(rt, t)?;
    let r = dock_start::start(t, &mut memory);
    let d = started(r);
    result(rt, r.err(), d, &memory)?;
    steps(rt, d, text, &mut memory)
}
