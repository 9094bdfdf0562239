// The dock: every short list of steps, on the product's dock and on the one written anew side by side, compared after each step; and the
// fewest cycles of a list of steps that hands over everything, against the planner's T.
ghost use Rattle.std.specs.Prelude.{◌<◌, ◌≤◌};

use crate::bench::{Bench, Step};
use crate::report::{Report, Topic};
use crate::schedules::fewer;
use crate::tickets::{CARDS, Card, Case, FRAMES, Mode, Ticket};
use counting::Position;
use dock::Dock;
use refusals::Refusal;
use std::io;

// The most steps of a list, and how many steps there are to choose from for 3 frames.
const LONGEST: usize = 8;

const CHOICES: usize = 7;

// What is seen of a dock: whether broken off, whether any card has read in this cycle, and which; frames handed over, cycles ended, frames held;
// and the first places of memory, which have the frames' cards, with 128 more while they are held.
#[derive(Clone, Copy, Debug, PartialEq, Eq)]
struct Seen {
    broken: bool,
    reading: bool,
    read: [bool; CARDS],
    delivered: usize,
    ended: usize,
    holding: usize,
    memory: [u8; CARDS],
}

fn marked(card: Card, held: bool) -> u8 {
    if held {
        card.number() + 128
    } else {
        card.number()
    }
}

fn seen_anew(own: &Bench, case: &Case) -> Seen {
    let cards = &case.cards;
    let held = &own.held;
    Seen {
        broken: own.broken,
        reading: own.reading,
        read: own.read,
        delivered: own.delivered,
        ended: own.ended,
        holding: own.holding(),
        memory: [
            marked(cards[0], held[0]),
            marked(cards[1], held[1]),
            marked(cards[2], held[2]),
        ],
    }
}

// The product's dock, or a refusal, which is never expected; and its memory.
#[derive(Clone, Copy)]
struct Product {
    dock: Result<Dock, Refusal>,
    memory: [u8; FRAMES],
}

impl Product {
    fn start(ticket: &[u8]) -> Product {
        let mut memory = [0; FRAMES];
        let dock = dock_start::start(ticket, &mut memory);
        Product { dock, memory }
    }

    fn drive(&mut self, step: Step) {
        let taken = match step {
            Step::Read(p) => dock::Step::Read(Position(p)),
            Step::Drop(p) => dock::Step::Drop(Position(p)),
            Step::End => dock::Step::End,
        };
        if let Ok(dock) = self.dock {
            self.dock = dock::drive(dock, taken, &mut self.memory);
        }
    }

    // What is seen of the dock, or the number of a refusal.
    fn seen(&self) -> Result<Seen, u8> {
        let dock = self.dock.map_err(u8::from)?;
        let busy = &dock.busy;
        let memory = &self.memory;
        Ok(Seen {
            broken: dock.broken,
            reading: dock.reading,
            read: [busy[0], busy[1], busy[2]],
            delivered: usize::from(dock.delivered),
            // There is no From of u32 for usize.
            ended: dock.ended as usize,
            holding: usize::from(dock.holding),
            memory: [memory[0], memory[1], memory[2]],
        })
    }
}

// The two docks, as a list of steps left them.
#[derive(Clone, Copy)]
struct Docks {
    own: Bench,
    product: Product,
}

// The lists of steps that are tried: for what ticket, of which steps, and how long.
#[derive(Drop)]
struct Lists<'a> {
    case: &'a Case,
    choices: &'a [Step],
    longest: usize,
    ghost short: { longest ≤ 8 },
}

// Compares the two docks after these steps. Answers the cycles needed, if everything is handed over.
fn compare_docks<P: Print>(
    report: &mut Report<'_, P>,
    case: &Case,
    steps: &[Step],
    docks: &Docks,
) -> io::Result<Option<usize>> {
    let needed = docks.own.needed(case);
    if needed.is_some() {
        report.count_complete();
    }
    report.compare(
        Topic::Docks,
        steps,
        Ok(seen_anew(&docks.own, case)),
        docks.product.seen(),
    )?;
    Ok(needed)
}

// All lists that go on from the first `taken` steps, by one step or more. Answers the fewest cycles needed by one of the lists.
fn explore<P: Print>(
    report: &mut Report<'_, P>,
    lists: &Lists<'_>,
    steps: &mut [Step; LONGEST],
    taken: usize,
    docks: &Docks,
) -> io::Result<Option<usize>>
    requires { taken < lists.now.longest }
{
    let mut fewest = None;
    for step in lists.choices {
        let mut after = *docks;
        after.own.step(lists.case, *step);
        after.product.drive(*step);
        steps[taken] = *step;
        let longer = taken + 1;
        fewest = fewer(
            fewest,
            compare_docks(report, lists.case, &steps[..longer], &after)?,
        );
        if longer < lists.longest {
            fewest = fewer(fewest, explore(report, lists, steps, longer, &after)?);
        }
    }
    Ok(fewest)
}

// The steps to choose from: a read and a drop of each frame, and the end of the cycle.
fn choices(frames: usize) -> [Step; CHOICES]
    requires { frames ≤ 3 }
{
    let mut steps = [Step::End; CHOICES];
    for p in 0..frames {
        // It fits: `try_from` would be a Result that is never an Err.
        let position = p as u16;
        steps[p] = Step::Read(position);
        steps[frames + p] = Step::Drop(position);
    }
    steps
}

// All lists of steps for a read of 1 to 3 frames, and their fewest cycles against the planner's T. With up to 8 steps, 7 for 3 frames, a read
// of each and the ends of up to n cycles fit, and no T is above n: so T is reached.
pub(crate) fn compare_all<P: Print>(
    report: &mut Report<'_, P>,
    ticket: &Ticket,
    t: u16,
) -> io::Result<()> {
    let case = &ticket.case;
    let n = case.frames;
    if case.mode != Mode::Read || n == 0 || 3 < n {
        return Ok(());
    }
    let docks = Docks {
        own: Bench::new(),
        product: Product::start(ticket.bytes()),
    };
    let choices = choices(n);
    let lists = Lists {
        case,
        choices: &choices[..2 * n + 1],
        longest: if n < 3 { LONGEST } else { LONGEST - 1 },
    };
    let mut steps = [Step::End; LONGEST];
    compare_docks(report, case, &[], &docks)?;
    let fewest = explore(report, &lists, &mut steps, 0, &docks)?;
    report.compare(Topic::Steps, "the list", fewest, Some(usize::from(t)))
}
