// Correct schedules, as document 01 states them under "Rules from document 000", and a schedule's first fault, as it states it under "The
// checker and the saver"; and the count of request 2026-03, which ends at m. Everything is counted frame by frame.
ghost use Rattle.std.specs.Prelude.{◌<◌};

use crate::tickets::{Case, FRAMES};

// The faults of a frame, the first one first.
#[derive(Clone, Copy, Debug, PartialEq, Eq)]
pub(crate) enum Fault {
    NoCycle,
    SharedCard,
    Overfull,
}

// Whether a cycle counts against another in the pool rule: in a save, one equal or later; in a read, one equal or earlier.
fn counts(case: &Case, cycle: u16, own: u16) -> bool {
    if case.is_save() {
        own <= cycle
    } else {
        cycle <= own
    }
}

// The cycles of the frames that the pool rule of frame i looks at, in list order: in a save those before it, in a read those after it.
fn in_rule<'a>(case: &Case, cycles: &'a [u16; FRAMES], i: usize) -> &'a [u16]
    requires { i < case.now.frames }
{
    if case.is_save() {
        &cycles[..i]
    } else {
        &cycles[i + 1..case.frames]
    }
}

// The first fault of frame i. It shares its card if an earlier frame of the card is in the same cycle.
fn fault_at(case: &Case, cycles: &[u16; FRAMES], i: usize) -> Option<Fault>
    requires { i < case.now.frames }
{
    let card = case.cards[i];
    let cycle = cycles[i];
    if cycle == 0 {
        return Some(Fault::NoCycle);
    }
    let mut earlier = case.cards[..i].iter().zip(cycles);
    if earlier.any(|(other, made)| *other == card && *made == cycle) {
        return Some(Fault::SharedCard);
    }
    let rule = in_rule(case, cycles, i);
    let pool = rule
        .iter()
        .filter(|other| counts(case, **other, cycle))
        .count();
    (usize::from(case.pool) <= pool).then_some(Fault::Overfull)
}

// What the rules say of a schedule: the first fault of the lowest position at fault, and that position; and the number of its cycles, which
// is its largest cycle number, 0 for no frames. It is correct if it has no fault.
#[derive(Clone, Copy)]
pub(crate) struct Judged {
    pub(crate) fault: Option<(Fault, usize)>,
    pub(crate) cycles: u16,
}

impl Judged {
    // The number of cycles of a correct schedule.
    pub(crate) fn correct(&self) -> Option<u16> {
        match self.fault {
            None => Some(self.cycles),
            Some(_) => None,
        }
    }
}

pub(crate) fn own_verdict(case: &Case, cycles: &[u16; FRAMES]) -> Judged {
    let fault = (0..case.frames).find_map(|i| fault_at(case, cycles, i).map(|fault| (fault, i)));
    let largest = cycles[..case.frames].iter().copied().max();
    Judged {
        fault,
        cycles: largest.unwrap_or(0),
    }
}

// A count in the pool rule: how many frames count, and how many were looked at.
#[derive(Clone, Copy, Debug, PartialEq, Eq)]
pub(crate) struct Count {
    pub(crate) count: u16,
    pub(crate) looked: u16,
}

// The count in the pool rule of frame i, up to m: its frames are looked at until m of them count.
pub(crate) fn own_count(case: &Case, cycles: &[u16; FRAMES], i: usize) -> Count
    requires { i < case.now.frames }
{
    let own = cycles[i];
    let mut found = Count {
        count: 0,
        looked: 0,
    };
    for cycle in in_rule(case, cycles, i) {
        if found.count < u16::from(case.pool) {
            found.looked = found.looked.saturating_add(1);
            if counts(case, *cycle, own) {
                found.count = found.count.saturating_add(1);
            }
        }
    }
    found
}
