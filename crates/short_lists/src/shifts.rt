// How far one frame shifts T (request 2026-08): in reads and saves of up to 7 frames, each frame put on every other card, and a frame of every card put in
// at every place.
ghost use Rattle.std.specs.Prelude.{◌≤◌, ◌<◌};

use crate::cycles;
use crate::report::{Report, Topic};
use crate::tickets::{CARDS, Card, Case, Mode, Ticket};
use std::io;

// A shift of T by at most one cycle, from fewer cycles to more.
#[derive(Clone, Copy, PartialEq, Eq)]
pub(crate) enum Shift {
    Fewer,
    Equal,
    More,
}

// The shift from t cycles to u, where it is one of the three.
fn shift_of(t: u16, u: u16) -> Option<Shift> {
    if u.saturating_add(1) == t {
        Some(Shift::Fewer)
    } else if u == t {
        Some(Shift::Equal)
    } else if u == t.saturating_add(1) {
        Some(Shift::More)
    } else {
        None
    }
}

// The same ticket with one frame on another card.
fn on_card(case: &Case, place: usize, card: Card) -> Case
    requires { place < 8 }
{
    let mut other = *case;
    other.cards[place] = card;
    other
}

// The ticket with a frame more at a place: those behind it stand one place later.
fn with_frame(case: &Case, place: usize, card: Card) -> Case
    requires { (place ≤ case.now.frames) × (case.now.frames < 8) }
{
    let mut longer = *case;
    longer.frames += 1;
    longer.cards[place..].rotate_right(1);
    longer.cards[place] = card;
    longer
}

// The shift from t cycles to those of another ticket.
fn shift_to(t: u16, other: &Case) -> Option<Shift> {
    let ticket = Ticket::new(*other);
    match cycles(ticket.bytes()) {
        Some(u) => shift_of(t, u),
        None => None,
    }
}

// A frame put on another card: T shifts by at most one cycle.
fn compare_other_card<P: Print>(
    report: &mut Report<'_, P>,
    t: u16,
    place: usize,
    other: &Case,
) -> io::Result<()> {
    let shift = shift_to(t, other);
    if let Some(found) = shift {
        report.other_card.count(found);
    }
    let cards = other.cards;
    report.compare(Topic::OtherCard, (place, cards), true, shift.is_some())
}

// A frame more: T stays, or is one more.
fn compare_frame_more<P: Print>(
    report: &mut Report<'_, P>,
    t: u16,
    place: usize,
    longer: &Case,
) -> io::Result<()> {
    let shift = shift_to(t, longer);
    if let Some(found) = shift {
        report.frame_more.count(found);
    }
    let cards = longer.cards;
    let allowed = shift == Some(Shift::Equal) || shift == Some(Shift::More);
    report.compare(Topic::FrameMore, (place, cards), true, allowed)
}

// All shifts of one ticket of t cycles.
pub(crate) fn compare_all<P: Print>(
    report: &mut Report<'_, P>,
    case: &Case,
    t: u16,
) -> io::Result<()> {
    if 7 < case.frames || case.mode == Mode::SaveAndKeep {
        return Ok(());
    }
    for place in 0..8 {
        for number in 0..CARDS {
            // It fits: `try_from` would be a Result that is never an Err.
            let card = Card::new(number as u8);
            if place < case.frames && case.cards[place] != card {
                let other = on_card(case, place, card);
                compare_other_card(report, t, place, &other)?;
            }
            if place <= case.frames {
                let longer = with_frame(case, place, card);
                compare_frame_more(report, t, place, &longer)?;
            }
        }
    }
    Ok(())
}
