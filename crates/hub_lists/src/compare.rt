// The comparisons: a call of the hub, and the plans of its cards, for each list and choice of patterns.
use crate::lists::{Case, Lists};
use crate::report::{Counts, Topic};
use crate::rules::PLACES;
use crate::tickets::{Mode, Text};
use crate::{report, rules, tickets};
use refusals::Refusal;
use std::io;

// What is compared, and so written, as the T of a refused ticket, which no list has: the program says T as a number.
const REFUSED: u16 = 65535;

// The frames of an answer, or 1,000 and the number of a refusal: the program says both as one number.
fn answer_of(a: Result<u16, Refusal>) -> usize {
    match a {
        Ok(frames) => usize::from(frames),
        Err(refusal) => 1000 + usize::from(u8::from(refusal)),
    }
}

// How many places of a lent buffer are not as wanted: a number, where `==` would tell only that there are any.
fn unlike(wanted: &[u8; PLACES], buffer: &[u8; PLACES]) -> usize {
    wanted
        .iter()
        .zip(buffer)
        .filter(|(a, b)| **a != **b)
        .count()
}

// Both plans of the cards of a list: in each mode, with a pool of one more than seven for each camera, T against the load of the fullest card, and whether
// 8 times T is at most the frames and seven for each camera; and with a pool of seven for each camera, where there are more frames than that, whether it
// takes a cycle more.
fn compare_plans(
    rt: &impl Print,
    counts: &mut Counts,
    c: &Case,
    text: &Text,
    fullest: usize,
) -> io::Result<()> {
    let seven = 7 * c.camera_count();
    for mode in [Mode::Read, Mode::Save] {
        let t = usize::from(tickets::cycles(text, c, mode, seven + 1).unwrap_or(REFUSED));
        counts.compare(rt, Topic::Cycles, c, fullest, t)?;
        let within = 8 * t <= c.frame_count() + seven;
        counts.compare(rt, Topic::Bounds, c, 1, usize::from(within))?;
        if seven < c.frame_count() {
            let t = usize::from(tickets::cycles(text, c, mode, seven).unwrap_or(REFUSED));
            counts.count_longer(c, t == fullest.saturating_add(1));
        }
    }
    Ok(())
}

// One list with one choice of patterns. The hub is lent two places more than the longest list has frames. What is compared is the frames of the answer,
// or a refusal, with 2 to the power of 20 more for each place that is unlike.
fn compare_one(rt: &impl Print, counts: &mut Counts, c: &Case) -> io::Result<()> {
    let patterns = c.patterns();
    let cameras = c.cameras();
    let wanted = rules::cards(c, &patterns, &cameras);
    let mut buffer = [rules::LENT; PLACES];
    let answer = answer_of(hub::gather(
        &patterns[..c.camera_count()],
        &cameras[..c.frame_count()],
        &mut buffer,
    ));
    let got = answer.saturating_add(unlike(&wanted, &buffer) << 20);
    counts.compare(rt, Topic::Cards, c, c.frames, got)?;
    let text = tickets::text_of(&buffer, c.frames);
    compare_plans(rt, counts, c, &text, rules::fullest(&wanted))
}

// All lists of each number of frames, each with all choices of patterns. Writes how many they are, each counted once for a choice of patterns.
pub(crate) fn compare_all(rt: &impl Print, counts: &mut Counts, lists: Lists) -> io::Result<()> {
    let before = counts.compared();
    for frames in lists.from..=lists.to {
        for number in 0..lists.how_many(frames) {
            for choice in 0..lists.choices {
                let c = Case {
                    lists,
                    frames,
                    number,
                    choice,
                };
                compare_one(rt, counts, &c)?;
            }
        }
    }
    report::covered(rt, &lists, counts.compared().saturating_sub(before))
}
