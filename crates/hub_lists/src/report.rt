// The counters, and what the program writes: the first difference of each topic, how many lists were covered, and at the end all counts.
ghost use Rattle.std.specs.Prelude.{◌≤◌};

use crate::lists::{CAMERAS, Case, Lists};
use std::io;

// The answers that are compared.
#[derive(Clone, Copy)]
pub(crate) enum Topic {
    Cards,
    Cycles,
    Bounds,
}

impl Topic {
    fn name(self) -> &'static str {
        match self {
            Topic::Cards => "answers, cards, and places behind them",
            Topic::Cycles =>
                "T of reads and saves with a pool of 7 S + 1, with the load of the fullest card",
            Topic::Bounds => "8 T of these, at most L + 7 S",
        }
    }
}

// How many there are of something, and how many of them are the ones that matter: those that differ, or that take one cycle more.
#[derive(Clone, Copy, Default)]
struct Tally {
    all: u64,
    those: u64,
}

impl Tally {
    fn add(&mut self, one_of_those: bool) {
        self.all = self.all.saturating_add(1);
        if one_of_those {
            self.those = self.those.saturating_add(1);
        }
    }
}

// The comparisons of each topic; and for each number of cameras, the plans with a pool of 7 times as many that is less than the frames, and those of them
// that take one cycle more.
#[derive(Default, Drop)]
pub(crate) struct Counts {
    cards: Tally,
    cycles: Tally,
    bounds: Tally,
    longer: [Tally; CAMERAS + 1],
}

impl Counts {
    // How many lists were compared, each once for a choice of patterns.
    pub(crate) fn compared(&self) -> u64 {
        self.cards.all
    }

    // One comparison, which is counted; the first difference of a topic is written, with its list.
    pub(crate) fn compare(
        &mut self,
        rt: &impl Print,
        topic: Topic,
        c: &Case,
        expected: usize,
        got: usize,
    ) -> io::Result<()> {
        let tally = match topic {
            Topic::Cards => &mut self.cards,
            Topic::Cycles => &mut self.cycles,
            Topic::Bounds => &mut self.bounds,
        };
        let differs = expected != got;
        tally.add(differs);
        if differs && tally.those == 1 {
            difference(rt, topic, c, expected, got)?;
        }
        Ok(())
    }

    // A plan with a pool of 7 times the cameras, and whether it takes one cycle more than the fullest card has frames.
    pub(crate) fn count_longer(&mut self, c: &Case, more: bool) {
        self.longer[c.camera_count()].add(more);
    }
}

pub(crate) fn heading(rt: &impl Print) -> io::Result<()> {
    println!(rt;
        "All lists of S cameras. The pattern of camera q, from 0, is a + b q modulo 8: 8 choices have each a, with b = 0, 16 also b = 1, 64 each b."
    )
}

// How many lists were covered, each counted once for a choice of patterns.
pub(crate) fn covered(rt: &impl Print, lists: &Lists, made: u64) -> io::Result<()> {
    let Lists {
        cameras,
        from,
        to,
        run,
        choices,
    } = *lists;
    println!(rt;
        "S = {cameras}, lists of {from} to {to} frames in runs of {run}, choices of patterns {choices}: {made}"
    )
}

// The first difference of a topic, and its list.
fn difference(
    rt: &impl Print,
    topic: Topic,
    c: &Case,
    expected: usize,
    got: usize,
) -> io::Result<()> {
    print!(rt;
        "{}, the first difference: expected {expected}, got {got}",
        topic.name()
    )?;
    let Case {
        lists,
        frames,
        number,
        choice,
    } = *c;
    println!(rt;
        ", for S = {}, frames {frames}, runs of {}, list {number}, choice {choice}",
        lists.cameras, lists.run
    )
}

fn say_topic(rt: &impl Print, topic: Topic, tally: Tally) -> io::Result<()> {
    println!(rt;
        "{}: compared {}, differences {}",
        topic.name(),
        tally.all,
        tally.those
    )
}

fn say_longer(rt: &impl Print, s: usize, tally: Tally) -> io::Result<()> {
    print!(rt;
        "reads and saves of more than 7 S frames with a pool of 7 S, for S = {s}: {}",
        tally.all
    )?;
    println!(rt;
        ", one cycle more than the load of the fullest card: {}",
        tally.those
    )
}

// The counts of all topics; and of the plans with a pool of 7 times the cameras, for which there are lists of 1 camera and of 2 that are long enough.
pub(crate) fn summary(rt: &impl Print, counts: &Counts) -> io::Result<()> {
    say_topic(rt, Topic::Cards, counts.cards)?;
    say_topic(rt, Topic::Cycles, counts.cycles)?;
    say_topic(rt, Topic::Bounds, counts.bounds)?;
    say_longer(rt, 1, counts.longer[1])?;
    say_longer(rt, 2, counts.longer[2])
}
