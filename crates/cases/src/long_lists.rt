// Long lists: 4,096 frames on 32 cards in three layouts. A ticket of the table is a header; its lines are made here, and those of long_joins.rt.
use crate::{checks, output, plans};
use std::{array, io};

// The bytes of such a ticket, of edition 01.
pub(crate) const LONG: usize = 15 + 3 * 4096;

// The lines of a list: of edition 01 on one card, round robin, or in blocks; of edition 02 those of the first or of the second of two tickets.
#[derive(Clone, Copy)]
pub(crate) enum Layout {
    OneCard,
    RoundRobin,
    Blocks,
    First,
    Second,
}

impl Layout {
    // By the first letter of a word.
    pub(crate) fn named(word: &[u8]) -> Layout {
        match word.first() {
            Some(b'r') => Layout::RoundRobin,
            Some(b'b') => Layout::Blocks,
            Some(b'f') => Layout::First,
            Some(b's') => Layout::Second,
            _ => Layout::OneCard,
        }
    }

    // Byte i of the lines.
    fn byte(self, i: usize) -> u8 {
        let timed = i / 11 % 4096;
        match self {
            Layout::OneCard => line(0)[i % 3],
            Layout::RoundRobin => line(i / 3 % 32)[i % 3],
            Layout::Blocks => line(i / 384 % 32)[i % 3],
            Layout::First => timed_byte(i % 11, timed % 32, 3 * timed),
            Layout::Second => timed_byte(i % 11, 31 - timed % 32, 2 * timed),
        }
    }
}

// A line of its own in each of three test programs: a crate for it is no plainer, and the product's digits are what is tested.
pub(crate) fn digit(x: usize) -> u8 {
    b"0123456789ABCDEF"[x % 16]
}

// A line of edition 01.
pub(crate) fn line(card: usize) -> [u8; 3] {
    [digit(card / 16), digit(card), b'\n']
}

// Byte i of a line of edition 02, with a second below 65,536. Each is made alone: a whole line for each of its bytes took most of a run.
fn timed_byte(i: usize, card: usize, second: usize) -> u8 {
    match i {
        0 => digit(card / 16),
        1 => digit(card),
        2..=5 => b'0',
        6 => digit(second / 4096),
        7 => digit(second / 256),
        8 => digit(second / 16),
        9 => digit(second),
        _ => b'\n',
    }
}

// A text that begins with a header; its byte at place i past that is `byte(i)`.
pub(crate) fn text_of<const N: usize, F: Fn(usize) -> u8>(header: &[u8], byte: F) -> [u8; N]
    requires { F.IsAlwaysCallable byte }
{
    array::from_fn(|i| {
        if i < header.len() {
            header[i]
        } else {
            byte(i - header.len())
        }
    })
}

// A ticket with this header and layout.
pub(crate) fn ticket_of<const N: usize>(header: &[u8], layout: Layout) -> [u8; N] {
    text_of(header, |i| layout.byte(i))
}

// The sum of (L - i) times the number at place i, modulo 65,521: each is added to a running sum, which is added up in turn.
pub(crate) fn checksum<T: Copy + Into<u64>>(numbers: &[T]) -> u64 {
    let mut running: u64 = 0;
    let mut sum: u64 = 0;
    for n in numbers {
        running = running.wrapping_add((*n).into()) % 65521;
        sum = sum.wrapping_add(running) % 65521;
    }
    sum
}

pub(crate) fn planned(rt: &impl Print, header: &[u8], layout: &[u8]) -> io::Result<()> {
    let t: [u8; LONG] = ticket_of(header, Layout::named(layout));
    let mut plan = [0u16; 4096];
    output::left(rt, layout, 12)?;
    output::left(rt, header, 17)?;
    plans::answer(rt, planner::plan(&t, &mut plan))?;
    print!(rt; "{:10}", checksum(&plan))?;
    checks::verdict(rt, checker::check(&t, &plan))?;
    checks::run(rt, plan_run::run_plan(&t, &plan))
}
