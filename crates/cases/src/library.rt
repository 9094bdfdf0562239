// The exported calls of the firmware library: each call's whole answer, in numbers.
use crate::{output, tables};
use counting::Position;
use firmware::checks::{dockplan_check, dockplan_run_plan};
use firmware::plans::{dockplan_plan, dockplan_print};
use firmware::tickets::{dockplan_counts, dockplan_line, dockplan_line_refusal, dockplan_parse};
use std::io;

// The header.
fn header(rt: &impl Print, t: &[u8]) -> io::Result<()> {
    let a = dockplan_parse(t);
    print!(rt; "{:4}{:3}{:3}{:3}", a.refusal, a.edition, a.mode, a.cards)?;
    print!(rt; "{:3}{:3}", a.pool, a.frames)
}

// The header; the line at position 1 with the number beside it; the counts of cards 0 and 1.
fn reading(rt: &impl Print, t: &[u8]) -> io::Result<()> {
    header(rt, t)?;
    let line = dockplan_line(t, Position(1));
    let refusal = dockplan_line_refusal(t, Position(1));
    print!(rt; "{:6}{:3}{refusal:3}", line.offset, line.length)?;
    let counts = dockplan_counts(t);
    print!(rt; "{:6}", counts.refusal)?;
    output::list(rt, &counts.frames, 2, 3)
}

fn checking(rt: &impl Print, t: &[u8], plan: &[u16]) -> io::Result<()> {
    let a = dockplan_check(t, plan);
    print!(rt; "{:6}{:3}{:3}", a.refusal, a.verdict, a.position.0)?;
    print!(rt; "{:3}{:3}", a.cycles.0, a.peak)
}

fn running(rt: &impl Print, t: &[u8], plan: &[u16]) -> io::Result<()> {
    let a = dockplan_run_plan(t, plan);
    print!(rt;
        "{:6}{:4}{:4}",
        a.refusal,
        u8::from(a.broken),
        u8::from(a.complete)
    )?;
    print!(rt;
        "{:3}{:3}{:3}{:3}",
        a.delivered, a.ended.0, a.needed.0, a.peak
    )
}

// dockplan_plan with three places, and how many bytes dockplan_print puts into 60.
fn planning(rt: &impl Print, t: &[u8]) -> io::Result<()> {
    let mut buffer = [9u16; 3];
    let mut text = [0u8; 60];
    let a = dockplan_plan(t, &mut buffer);
    print!(rt; "{:6}{:3}", a.refusal, a.cycles.0)?;
    output::list(rt, &buffer, 3, 3)?;
    print!(rt; "{:6}", dockplan_print(t, &mut text))
}

// A ticket, and a plan of three cycles.
pub(crate) fn called(rt: &impl Print, t: &[u8], text: &[u8]) -> io::Result<()> {
    let mut plan = [0u16; 3];
    tables::read_numbers(text, &mut plan, tables::number);
    output::ticket(rt, t)?;
    reading(rt, t)?;
    planning(rt, t)?;
    rt.print("   ")?;
    output::list(rt, &plan, 3, 3)?;
    checking(rt, t, &plan)?;
    running(rt, t, &plan)
}
