// The saver: each list saved frame by frame and closed until the pool is empty, against greedy_writing, as the save plan is in main.rt.
ghost use Rattle.saver.specs.Calls.{Given};

use crate::greedy;
use crate::greedy::Schedule;
use crate::report::{Report, Topic};
use crate::tickets::{CARDS, Case, FRAMES};
use counting::Position;
use saver::{Answer, Saver};
use std::io;

// The entry of a card that wrote nothing: C has no Option, and the saver's answer is the struct that C gets.
const NONE: Position = Position(65535);

// The closing cycles that are tried, more than a list can need.
const CLOSINGS: usize = 12;

// What a saver wrote: the cycle of each position, and the last one made; and how many entries were astray, of a position that is not a frame of the
// card that wrote it, or was written before.
#[derive(Clone, Copy, Debug, PartialEq, Eq)]
struct Noted {
    schedule: Schedule,
    astray: usize,
}

impl Noted {
    fn new() -> Noted {
        Noted {
            schedule: Schedule {
                cycles: [0; FRAMES],
                made: 0,
            },
            astray: 0,
        }
    }

    // Notes one position that a card wrote.
    fn entry(&mut self, case: &Case, card: usize, position: Position, made: u16) {
        let i = usize::from(position.0);
        let cards = case.cards();
        if i < cards.len() && cards[i].place() == card && self.schedule.cycles[i] == 0 {
            self.schedule.cycles[i] = made;
        } else {
            self.astray = self.astray.saturating_add(1);
        }
    }

    // Notes every position that a call wrote.
    fn note(&mut self, case: &Case, a: &Answer) {
        for (card, position) in a.written.iter().enumerate() {
            if *position != NONE {
                self.entry(case, card, *position, a.cycle.0);
            }
        }
    }
}

// A saver, and what was noted of it.
#[derive(Clone, Copy)]
struct Saved {
    saver: Saver,
    noted: Noted,
}

// One list with one pool: its frames saved, and closing cycles until one is refused.
fn save_list(case: &Case) -> Saved
    ensures { Given result.saver }
{
    // It fits: `try_from` would be a Result that is never an Err.
    let cards = CARDS as u8;
    let mut saver = Saver::new(cards, u16::from(case.pool)).saver;
    let mut noted = Noted::new();
    for card in case.cards() {
        let a = saver.save(card.number());
        noted.note(case, &a);
        saver = a.saver;
    }
    for _ in 0..CLOSINGS {
        let a = saver.close();
        if a.refusal != 0 {
            break;
        }
        noted.note(case, &a);
        saver = a.saver;
    }
    noted.schedule.made = saver.made.0;
    Saved { saver, noted }
}

// The answer to a closing cycle: its refusal, a number as in the struct that C gets; whether the record stays as it was; the cycle that was made;
// and how many positions were written.
#[derive(Clone, Copy, Debug, PartialEq, Eq)]
struct Closing {
    refusal: u8,
    same: bool,
    made: u16,
    written: usize,
}

fn close(saver: Saver) -> Closing
    requires { Given saver }
{
    let a = saver.close();
    Closing {
        refusal: a.refusal,
        same: a.saver == saver,
        made: a.cycle.0,
        written: a
            .written
            .iter()
            .filter(|position| **position != NONE)
            .count(),
    }
}

// The cycles made and noted against greedy_writing. Then a closing cycle with an empty pool: refusal 14 with the record as it was, no cycle, and
// nothing written.
pub(crate) fn compare_saver<P: Print>(report: &mut Report<'_, P>, case: &Case) -> io::Result<()> {
    let saved = save_list(case);
    let wanted = Noted {
        schedule: greedy::greedy_writing(case),
        astray: 0,
    };
    report.compare(Topic::Savers, "the list", wanted, saved.noted)?;
    let refused = Closing {
        refusal: 14,
        same: true,
        made: 0,
        written: 0,
    };
    report.compare(
        Topic::Savers,
        "a closing cycle more",
        refused,
        close(saved.saver),
    )?;
    report.count_cycles(u64::from(saved.saver.made.0));
    Ok(())
}
