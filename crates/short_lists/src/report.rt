// What is counted, and what the program writes: the first difference of each topic, and at the end all counts.
use crate::rules::Fault;
use crate::shifts::Shift;
use std::fmt::Debug;
use std::{fmt, io};

// The topics: the answers compared. The first 12 have a line of the summary each.
#[derive(Clone, Copy)]
pub(crate) enum Topic {
    Plans,
    Fewest,
    Verdicts,
    LateVerdicts,
    Peaks,
    PoolCounts,
    Runs,
    Docks,
    Steps,
    Savers,
    Joins,
    JoinedCycles,
    OtherCard,
    FrameMore,
}

const TOPICS: usize = 14;

const TOLD: usize = 12;

const TITLES: [&str; TOPICS] = [
    "plans of the three modes, with greedyWriting",
    "read and save plans of up to 5 frames, with all schedules",
    "verdicts on all schedules of up to 5 frames",
    "verdicts on those of up to 4 frames, with cycles 8,000 times as large, and 65,531 later",
    "read plans of up to 5 frames without cycle 0 or a shared card and cycle, valid exactly where the peak is within the pool",
    "counts of the pool rule, for each frame of those of up to 4 frames",
    "runs of all schedules of up to 4 frames, and of read and save plans of up to 5",
    "docks after all lists of steps, up to 8 for 1 and 2 frames, 7 for 3",
    "read plans of 1 to 3 frames, whose T cycles fit, with all lists of steps",
    "savers, with greedyWriting, and the refused close",
    "joined tickets, of all pairs of timed lists of up to 3 frames, pools 1 to 3",
    "cycles of the joined tickets, not fewer than of either ticket",
    "reads and saves of up to 7 frames with a frame on another card",
    "reads and saves of up to 7 frames with a frame more",
];

// The comparisons of a topic.
#[derive(Clone, Copy)]
struct Tally {
    title: &'static str,
    compared: u64,
    differences: u64,
}

impl Tally {
    fn new(title: &'static str) -> Tally {
        Tally {
            title,
            compared: 0,
            differences: 0,
        }
    }

    // The tally with a comparison more.
    fn after(self, same: bool) -> Tally {
        Tally {
            title: self.title,
            compared: self.compared.saturating_add(1),
            differences: self.differences.saturating_add(u64::from(!same)),
        }
    }
}

impl fmt::Display for Tally {
    fn fmt<W: fmt::Write>(&self, f: &mut fmt::Formatter<W>) -> fmt::Result {
        let title = self.title;
        let compared = self.compared;
        let differences = self.differences;
        write!(f, "{title}: compared {compared}, differences {differences}")
    }
}

// The schedules of each kind.
#[derive(Clone, Copy, Default)]
struct Schedules {
    correct: u64,
    no_cycle: u64,
    shared_card: u64,
    overfull: u64,
}

// How often one frame more, or on another card, shifts T by so much. The summary does not tell these.
#[derive(Clone, Copy, Default)]
pub(crate) struct Shifts {
    fewer: u64,
    equal: u64,
    more: u64,
}

impl Shifts {
    pub(crate) fn count(&mut self, shift: Shift) {
        match shift {
            Shift::Fewer => count(&mut self.fewer, 1),
            Shift::Equal => count(&mut self.equal, 1),
            Shift::More => count(&mut self.more, 1),
        }
    }
}

// The counts, and where they are written.
#[derive(Drop)]
pub(crate) struct Report<'a, P> {
    rt: &'a P,
    tallies: [Tally; TOPICS],
    schedules: Schedules,
    pub(crate) other_card: Shifts,
    pub(crate) frame_more: Shifts,
    lists: u64,
    complete: u64,
    cycles: u64,
    differences: u64,
    // the topics whose first difference was written out
    pub(crate) written: u64,
}

fn count(counter: &mut u64, n: u64) {
    *counter = counter.saturating_add(n);
}

// Writes the first difference of a topic.
#[cold]
#[inline(never)]
fn write_first<P: Print, I: Copy + Debug, A: Copy + Debug>(
    rt: &P,
    tally: Tally,
    item: I,
    expected: A,
    got: A,
) -> io::Result<()> {
    println!(rt; "{tally}")?;
    println!(rt;
        "the first difference: expected {expected:?}, got {got:?}, for {item:?} of the ticket below"
    )
}

impl<'a, P: Print> Report<'a, P> {
    pub(crate) fn new(rt: &'a P) -> Report<'a, P> {
        Report {
            rt,
            tallies: TITLES.map(Tally::new),
            schedules: Schedules::default(),
            other_card: Shifts::default(),
            frame_more: Shifts::default(),
            lists: 0,
            complete: 0,
            cycles: 0,
            differences: 0,
            written: 0,
        }
    }

    pub(crate) fn count_list(&mut self) {
        count(&mut self.lists, 1);
    }

    // A schedule, by its first fault.
    pub(crate) fn count_schedule(&mut self, fault: Option<Fault>) {
        let kind = match fault {
            None => &mut self.schedules.correct,
            Some(Fault::NoCycle) => &mut self.schedules.no_cycle,
            Some(Fault::SharedCard) => &mut self.schedules.shared_card,
            Some(Fault::Overfull) => &mut self.schedules.overfull,
        };
        count(kind, 1);
    }

    // A list of steps that hands over everything.
    pub(crate) fn count_complete(&mut self) {
        count(&mut self.complete, 1);
    }

    // The cycles of a saver.
    pub(crate) fn count_cycles(&mut self, n: u64) {
        count(&mut self.cycles, n);
    }

    // One comparison, for a schedule, a list of steps or the like. The first difference of a topic is written out.
    pub(crate) fn compare<I: Copy + Debug, A: Copy + Debug + PartialEq>(
        &mut self,
        topic: Topic,
        item: I,
        expected: A,
        got: A,
    ) -> io::Result<()> {
        let same = expected == got;
        // An enum's number has no From.
        let i = topic as usize;
        let tally = self.tallies[i].after(same);
        self.tallies[i] = tally;
        if same {
            return Ok(());
        }
        count(&mut self.differences, 1);
        if tally.differences == 1 {
            count(&mut self.written, 1);
            write_first(self.rt, tally, item, expected, got)?;
        }
        Ok(())
    }

    // The text of tickets whose differences were written out.
    pub(crate) fn write(&self, text: &[u8]) -> io::Result<()> {
        self.rt.write_all(text)
    }

    pub(crate) fn summary(&self) -> io::Result<()> {
        let rt = self.rt;
        let schedules = self.schedules;
        println!(rt;
            "lists of up to 8 frames on 3 cards, each with pools 1 to 4: {}",
            self.lists
        )?;
        println!(rt;
            "correct schedules of up to 5 frames, read and save: {}",
            schedules.correct
        )?;
        println!(rt; "schedules at fault by a cycle 0: {}", schedules.no_cycle)?;
        println!(rt; "by a shared card: {}", schedules.shared_card)?;
        println!(rt; "by an overfull pool: {}", schedules.overfull)?;
        println!(rt;
            "lists of steps that hand over everything: {}",
            self.complete
        )?;
        println!(rt; "cycles of savers: {}", self.cycles)?;
        for tally in &self.tallies[..TOLD] {
            println!(rt; "{tally}")?;
        }
        if self.differences == 0 {
            println!(rt; "no differences")
        } else {
            println!(rt; "DIFFERENCES: {}", self.differences)
        }
    }
}
