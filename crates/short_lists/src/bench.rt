// A dock written anew from document 01, "The dock", and request 2026-05, for lists of up to 8 frames on 3 cards.
use crate::tickets::{CARDS, Card, Case, FRAMES};

// A step: a frame is read, or dropped, by its position; or the cycle ends.
#[derive(Clone, Copy, Debug)]
pub(crate) enum Step {
    Read(u16),
    Drop(u16),
    End,
}

// What the dock keeps: of each frame whether it is held, of each card whether it has read in this cycle, and whether any has; beside it the cycles
// that were needed to hand everything over, 0 before that, and the peak.
#[derive(Clone, Copy)]
pub(crate) struct Bench {
    pub(crate) broken: bool,
    pub(crate) reading: bool,
    pub(crate) delivered: usize,
    pub(crate) ended: usize,
    pub(crate) held: [bool; FRAMES],
    pub(crate) read: [bool; CARDS],
    needed: usize,
    pub(crate) peak: usize,
}

impl Bench {
    pub(crate) fn new() -> Bench {
        Bench {
            broken: false,
            reading: false,
            delivered: 0,
            ended: 0,
            held: [false; FRAMES],
            read: [false; CARDS],
            needed: 0,
            peak: 0,
        }
    }

    // How many frames are held.
    pub(crate) fn holding(&self) -> usize {
        self.held.iter().filter(|held| **held).count()
    }

    // The cycles needed, once everything is handed over.
    pub(crate) fn needed(&self, case: &Case) -> Option<usize> {
        (case.frames <= self.delivered).then_some(self.needed)
    }

    fn read_frame(&mut self, p: usize, card: Card) {
        if self.read[card.place()] {
            self.broken = true;
            return;
        }
        self.reading = true;
        self.read[card.place()] = true;
        if self.delivered <= p && p < FRAMES {
            self.held[p] = true;
        }
    }

    fn drop_frame(&mut self, p: usize) {
        if self.reading {
            self.broken = true;
        } else if p < FRAMES {
            self.held[p] = false;
        }
    }

    // The end of a cycle: what it finds held counts for the peak, also where that is too much; while the next of the frames is held, it is handed
    // over.
    fn end_cycle(&mut self, case: &Case) {
        let found = self.holding();
        self.peak = self.peak.max(found);
        if usize::from(case.pool) < found {
            self.broken = true;
            return;
        }
        let before = self.delivered;
        for (p, held) in self.held.iter_mut().enumerate() {
            if p == self.delivered && *held {
                *held = false;
                self.delivered = p + 1;
            }
        }
        self.ended = self.ended.saturating_add(1);
        self.reading = false;
        self.read = [false; CARDS];
        if before < case.frames && case.frames <= self.delivered {
            self.needed = self.ended;
        }
    }

    // One step on the list's dock with its pool.
    pub(crate) fn step(&mut self, case: &Case, step: Step) {
        if self.broken {
            return;
        }
        match step {
            Step::Read(p) => {
                if let Some(card) = case.cards().get(usize::from(p)) {
                    self.read_frame(usize::from(p), *card);
                }
            }
            Step::Drop(p) => self.drop_frame(usize::from(p)),
            Step::End => self.end_cycle(case),
        }
    }
}

// A plan's run: its cycles from 1 to T, in each the reads of its frames in list order and then its end.
pub(crate) fn run(case: &Case, cycles: &[u16; FRAMES], t: u16) -> Bench {
    let mut dock = Bench::new();
    for made in 1..=t {
        for p in 0..case.frames {
            if cycles[p] == made {
                // It fits: `try_from` would be a Result that is never an Err.
                dock.step(case, Step::Read(p as u16));
            }
        }
        dock.step(case, Step::End);
    }
    dock
}
