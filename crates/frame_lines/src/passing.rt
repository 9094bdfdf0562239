// The lines that pass, in one loop for both editions: of each the card is written, and the first that does not pass ends the loop.
ghost use Rattle.std.specs.Prelude.{◌≡◌, ℕ, ◌+◌, ◌*◌, ◌≤◌, length};
ghost use Rattle.text.specs.Text.{digit};
ghost use Rattle.text.specs.Wide.{wide_number};
ghost use Rattle.header.specs.Editions.{second_digits, line_bytes};
ghost use Rattle.header.specs.Limits.{max_frames};
ghost use Rattle.frame_lines.specs.Reading.{ReadTo};

use header::{Header, editions};
use text::read::Digits;
use text::wide::{NO_NUMBER, WideDigits};

// What follows the card of a line, as a number of so many digits: NO_NUMBER or more where one of them is none.
pub(crate) trait Second {
    ghost DIGITS: { ℕ };

    const DIGITS: usize;

    fn second(&self, s: &[u8], at: usize) -> u64
        requires { at + DIGITS ≤ length s.now }
        ensures { result ≡ wide_number s.now at DIGITS };
}

// Lines that have a card alone.
pub(crate) struct CardAlone;

impl Second for CardAlone {
    ghost DIGITS = { 0 };

    const DIGITS: usize = 0;

    fn second(&self, _s: &[u8], _at: usize) -> u64 {
        0
    }
}

// Lines that have a capture second after the card.
impl Second for WideDigits {
    ghost DIGITS = { 8 };

    const DIGITS: usize = editions::SECOND_DIGITS;

    fn second(&self, s: &[u8], at: usize) -> u64 {
        self.number(s, at, editions::SECOND_DIGITS)
    }
}

// The value of two digits, 255 or more where one of them is none.
fn pair(digits: &Digits, high: u8, low: u8) -> u16
    ensures { result ≡ digit high * 16 + digit low }
{
    u16::from(digits.digit(high)) * 16 + u16::from(digits.digit(low))
}

// A card's value below `cards` says that both digits are digits and that the card is one of the ticket's. A second must be a number, and not lower
// than that of the line before.
pub(crate) fn read<S: Second>(
    digits: &Digits,
    seconds: &S,
    s: &[u8],
    h: Header,
    lines: usize,
    card: &mut [u8],
) -> usize
    requires { (lines ≤ max_frames) × (lines ≤ length card.old) × (line_bytes h.edition * lines ≤ length s.now)
        × (second_digits h.edition ≡ S.DIGITS) }
    ensures { ReadTo h.edition s.now h.cards lines card.old result card.new }
{
    let below = u16::from(h.cards);
    let width = editions::CARD_DIGITS + S::DIGITS;
    let mut last: u64 = 0;
    let mut at: usize = 0;
    for i in 0..lines {
        let number = pair(digits, s[at], s[at + 1]);
        if below <= number {
            return i;
        }
        let second = seconds.second(s, at + editions::CARD_DIGITS);
        if NO_NUMBER <= second {
            return i;
        }
        if second < last {
            return i;
        }
        if s[at + width] != text::END {
            return i;
        }
        // below `cards`, so it fits: a `try_from` would answer a Result that is never an Err
        card[i] = number as u8;
        last = second;
        at += width + 1;
    }
    lines
}
