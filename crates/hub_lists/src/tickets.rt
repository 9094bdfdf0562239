// Tickets of edition 01 with eight cards: their text, and how many cycles they take.
use crate::lists::{Case, FRAMES};
use crate::rules::PLACES;

// The modes, as document 01 numbers them.
#[derive(Clone, Copy)]
pub(crate) enum Mode {
    Read,
    Save,
}

impl Mode {
    fn number(self) -> usize {
        match self {
            Mode::Read => 0,
            Mode::Save => 1,
        }
    }
}

// The bytes of the longest ticket.
const LONGEST: usize = 15 + 3 * FRAMES;

pub(crate) type Text = [u8; LONGEST];

// A number as a digit of a ticket, or as the card of a line. A line of its own in each of three test programs: a crate for it is no plainer.
fn digit(x: usize) -> u8 {
    // It fits: `try_from` would be a Result that is never an Err.
    let low = (x % 16) as u8;
    if low < 10 { b'0' + low } else { b'7' + low }
}

// The ticket of n frames, a read with no pool, followed by more lines: n is what the header tells, and no length of the cards.
pub(crate) fn text_of(cards: &[u8; PLACES], n: usize) -> Text {
    let mut text = *b"01000800000000\n\
00\n00\n00\n00\n00\n00\n00\n00\n00\n00\n00\n00\n00\n00\n00\n00\n00\n00\n00\n00\n00\n00\n00\n00\n";
    text[12] = digit(n / 16);
    text[13] = digit(n);
    for (i, card) in cards[..FRAMES].iter().enumerate() {
        text[3 * i + 16] = digit(usize::from(*card));
    }
    text
}

// The ticket in a mode and with a pool.
fn with_pool(text: &Text, mode: Mode, pool: usize) -> Text {
    let mut ticket = *text;
    ticket[3] = digit(mode.number());
    ticket[8] = digit(pool / 16);
    ticket[9] = digit(pool);
    ticket
}

// T of the ticket of a case, in a mode and with a pool, where it is not refused.
pub(crate) fn cycles(text: &Text, c: &Case, mode: Mode, pool: usize) -> Option<u16> {
    let ticket = with_pool(text, mode, pool);
    let mut plan = [0u16; FRAMES];
    let plan = planner::plan(&ticket[..15 + 3 * c.frame_count()], &mut plan);
    plan.ok().map(|t| t.0)
}
