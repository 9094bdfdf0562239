// Tickets of up to 8 frames on 3 cards: what they say, and their text.
ghost use Rattle.std.specs.Prelude.{◌≡◌, ◌≤◌, ◌<◌, length};

// The most frames of a list, and the cards.
pub(crate) const FRAMES: usize = 8;

pub(crate) const CARDS: usize = 3;

// The bytes of a ticket of 8 frames.
const BYTES: usize = 39;

// The modes, in the order of the numbers that document 01 gives them.
#[derive(Clone, Copy, Debug, PartialEq, Eq)]
pub(crate) enum Mode {
    Read,
    Save,
    SaveAndKeep,
}

// One of the three cards.
#[derive(Clone, Copy, Debug, PartialEq, Eq)]
pub(crate) struct Card {
    number: u8,
    ghost known: { number < 3 },
}

impl Card {
    // The cards again and again, one for each number.
    pub(crate) fn new(number: u8) -> Card {
        Card { number: number % 3 }
    }

    pub(crate) fn number(self) -> u8
        ensures { result < 3 }
    {
        self.number
    }

    // The card's place in a table of cards.
    pub(crate) fn place(self) -> usize
        ensures { result < 3 }
    {
        usize::from(self.number)
    }
}

// What a ticket asks: its mode, its pool, how many frames it has, and their cards, with any behind them.
#[derive(Clone, Copy)]
pub(crate) struct Case {
    pub(crate) mode: Mode,
    pub(crate) pool: u8,
    pub(crate) frames: usize,
    pub(crate) cards: [Card; FRAMES],
    ghost fits: { frames ≤ 8 },
}

impl Case {
    pub(crate) fn cards(&self) -> &[Card]
        ensures { length result.now ≡ self.now.frames }
    {
        &self.cards[..self.frames]
    }

    pub(crate) fn is_save(&self) -> bool {
        self.mode == Mode::Save
    }
}

// A ticket: what it asks, and its text, followed by more lines, up to 8.
#[derive(Clone, Copy)]
pub(crate) struct Ticket {
    pub(crate) case: Case,
    text: [u8; BYTES],
}

impl Ticket {
    pub(crate) fn new(case: Case) -> Ticket {
        Ticket {
            case,
            text: text_of(&case),
        }
    }

    pub(crate) fn bytes(&self) -> &[u8] {
        &self.text[..15 + 3 * self.case.frames]
    }
}

// A digit or letter so many places after another. A line of its own in each of three test programs: a crate for it is no plainer.
pub(crate) fn digit(zero: u8, x: u8) -> u8 {
    zero % 128 + x % 10
}

// By `as`: an enum's number has no From, and the frames fit.
fn text_of(case: &Case) -> [u8; BYTES] {
    let mut text = *b"01000300000000\n00\n00\n00\n00\n00\n00\n00\n00\n";
    text[3] = digit(b'0', case.mode as u8);
    text[9] = digit(b'0', case.pool);
    text[13] = digit(b'0', case.frames as u8);
    for (i, card) in case.cards.iter().enumerate() {
        text[3 * i + 16] = digit(b'0', card.number());
    }
    text
}
