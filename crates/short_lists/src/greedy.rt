// greedyWriting, lazy prefetching and save and keep, as document 01 tells them: a pool, and cycles that are made one by one.
ghost use Rattle.std.specs.Prelude.{◌≤◌, length};

use crate::tickets::{CARDS, Card, Case, FRAMES, Mode};

// The frames' cycles, 0 behind them, and the number of cycles made, which is T in the end.
// Of the frames that entered, those whose cycle is 0 wait in the pool.
#[derive(Clone, Copy, Debug, PartialEq, Eq)]
pub(crate) struct Schedule {
    pub(crate) cycles: [u16; FRAMES],
    pub(crate) made: u16,
}

impl Schedule {
    // One cycle, if at least so many frames wait: every card with waiting frames writes the one that is first in the list.
    fn cycle_if(&mut self, entered: &[Card], least: usize)
        requires { length entered.now ≤ 8 }
    {
        let waiting = self.cycles[..entered.len()]
            .iter()
            .filter(|cycle| **cycle == 0)
            .count();
        if waiting < least {
            return;
        }
        self.made = self.made.saturating_add(1);
        let mut wrote = [false; CARDS];
        for (i, card) in entered.iter().enumerate() {
            if self.cycles[i] == 0 && !wrote[card.place()] {
                wrote[card.place()] = true;
                self.cycles[i] = self.made;
            }
        }
    }
}

// greedy_writing takes the frames in order, with one cycle before each that finds m in the pool. Then, but not in save and keep, closing
// cycles follow until the pool is empty, and each writes a frame.
pub(crate) fn greedy_writing(case: &Case) -> Schedule {
    let mut schedule = Schedule {
        cycles: [0; FRAMES],
        made: 0,
    };
    let cards = case.cards();
    for entered in 0..case.frames {
        schedule.cycle_if(&cards[..entered], usize::from(case.pool));
    }
    if case.mode != Mode::SaveAndKeep {
        for _ in cards {
            schedule.cycle_if(cards, 1);
        }
    }
    schedule
}

// Lazy prefetching: greedy_writing on the reversed list, and then T - c + 1 for each cycle c, reversed back.
fn lazy_prefetching(case: &Case) -> Schedule {
    let mut back = *case;
    let n = case.frames;
    back.cards[..n].reverse();
    let mut schedule = greedy_writing(&back);
    let after = schedule.made.saturating_add(1);
    let cycles = &mut schedule.cycles[..n];
    cycles.reverse();
    for cycle in cycles {
        *cycle = after.saturating_sub(*cycle);
    }
    schedule
}

// The schedule that document 01 gives for a ticket.
pub(crate) fn own_plan(case: &Case) -> Schedule {
    match case.mode {
        Mode::Read => lazy_prefetching(case),
        Mode::Save | Mode::SaveAndKeep => greedy_writing(case),
    }
}
