// The hub's cards planned: T of a read and of a save beside the load of the fullest card, with pools of 7 times the cameras and of one more.
// The tickets are of edition 01 and eight cards.
ghost use Rattle.std.specs.Prelude.{◌≤◌};

use crate::hubs::{PATTERNS, PLACES};
use crate::{hubs, long_lists, output, tables};
use counting::Cycle;
use refusals::Refusal;
use std::io;

// The bytes of a ticket of 64 frames.
const LONGEST: usize = 15 + 3 * PLACES;

// The header of a ticket, with a pool and frames below 256.
fn header_of(mode: u8, pool: usize, frames: usize) -> [u8; 15] {
    let mut header = *b"01000800000000\n";
    header[3] = b'0' + mode % 3;
    header[8] = long_lists::digit(pool / 16);
    header[9] = long_lists::digit(pool);
    header[12] = long_lists::digit(frames / 16);
    header[13] = long_lists::digit(frames);
    header
}

// A ticket of these cards, at the front; lines of card 0 follow.
fn ticket_of(mode: u8, pool: usize, cards: &[u8]) -> [u8; LONGEST] {
    let header = header_of(mode, pool, cards.len());
    long_lists::text_of(&header, |i| {
        let card = cards.get(i / 3).map_or(0, |card| usize::from(*card));
        long_lists::line(card)[i % 3]
    })
}

// The bytes of a ticket of up to 64 cards.
fn bytes_of(cards: &[u8]) -> usize
    ensures { result ≤ 207 }
{
    15 + 3 * cards.len().min(PLACES)
}

// The load of the fullest card.
fn fullest(cards: &[u8]) -> u16 {
    let t = ticket_of(0, 1, cards);
    let counts = ticket::counts(&t[..bytes_of(cards)]);
    counts.iter().copied().max().unwrap_or(0)
}

// T, or the number of a refusal. Not as in plans.rt: without the word before T, and in other columns.
fn cycles(rt: &impl Print, a: Result<Cycle, Refusal>) -> io::Result<()> {
    match a {
        Ok(t) => print!(rt; "{:6}", t.0),
        Err(refusal) => print!(rt; "refused{:3}", u8::from(refusal)),
    }
}

fn planned_as(rt: &impl Print, mode: u8, pool: usize, cards: &[u8]) -> io::Result<()> {
    let mut plan = [0u16; PLACES];
    let t = ticket_of(mode, pool, cards);
    cycles(rt, planner::plan(&t[..bytes_of(cards)], &mut plan))
}

// A read and a save.
fn both(rt: &impl Print, pool: usize, cards: &[u8]) -> io::Result<()> {
    rt.print("   ")?;
    planned_as(rt, 0, pool, cards)?;
    planned_as(rt, 1, pool, cards)
}

// The patterns, and with them the cameras. The bound is the largest T with 8 times T at most the frames and 7 times the cameras.
pub(crate) fn planned(rt: &impl Print, patterns: &[u8], list: &[u8]) -> io::Result<()> {
    let mut chosen = [0u8; PATTERNS];
    let mut cameras = [0u8; PLACES];
    let mut cards = [0u8; PLACES];
    output::left(rt, patterns, 10)?;
    output::left(rt, list, 48)?;
    let chosen = tables::read_numbers(patterns, &mut chosen, tables::card);
    let cameras = tables::read_numbers(list, &mut cameras, tables::card);
    let lent = &mut cards[..cameras.len()];
    let (refusal, frames) = hubs::own(chosen, cameras, lent);
    let most = 7 * chosen.len();
    print!(rt;
        "{refusal:9}{frames:8}{:9}{:7}",
        fullest(lent),
        (cameras.len() + most) / 8
    )?;
    both(rt, most, lent)?;
    both(rt, most + 1, lent)
}
