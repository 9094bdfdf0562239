// The frame lines of a ticket: each frame's card, the refusals 7, 8, 17 and 9, and how many frames each card has.
#![tactic(auto)]

ghost use Rattle.std.specs.Prelude.{◌≡◌, true, ◌+◌, ◌*◌, ◌≤◌, length};
ghost use Rattle.refusals.specs.Numbers.{number_in, number_of};
ghost use Rattle.text.specs.Text.{is_line};
ghost use Rattle.header.specs.Editions.{line_digits, line_bytes};
ghost use Rattle.header.specs.Limits.{max_frames};
ghost use Rattle.frame_lines.specs.Lines.{second_at, part_fault, cards_read};
ghost use Rattle.frame_lines.specs.Reading.{ReadTo, not_passing};

use header::{Header, editions};
use passing::CardAlone;
use refusals::Refusal;
use text::read::Digits;
use text::wide::WideDigits;

mod passing;
pub mod tally;

// The lines of either edition, up to the first that does not pass.
fn read_edition(digits: &Digits, s: &[u8], h: Header, lines: usize, card: &mut [u8]) -> usize
    requires { (lines ≤ max_frames) × (lines ≤ length card.old) × (line_bytes h.edition * lines ≤ length s.now) }
    ensures { ReadTo h.edition s.now h.cards lines card.old result card.new }
{
    if h.edition == editions::EDITION_2 {
        return passing::read(digits, &WideDigits::new(digits), s, h, lines, card);
    }
    passing::read(digits, &CardAlone, s, h, lines, card)
}

// The refusal of a line that does not pass: 7, 8 or 17.
fn not_passing(digits: &Digits, s: &[u8], h: Header, i: usize) -> Refusal
    requires { i ≤ max_frames }
    ensures { number_of result ≡ not_passing h.edition s.now h.cards i }
{
    let width = editions::line_digits(h.edition);
    let at = (width + 1) * i;
    if digits.is_line(s, at, width) {
        if digits.number(s, at, editions::CARD_DIGITS) < u32::from(h.cards) {
            return Refusal::SecondFalls;
        }
        return Refusal::NoSuchCard;
    }
    Refusal::NoLine
}

// Reads the part of a ticket that starts after its header, which should be one line for each frame, and writes the cards of the lines that
// pass to the front of `card`. A part that has fewer whole lines than frames is refused at the latest where it ends.
pub fn read_lines(digits: &Digits, s: &[u8], h: Header, card: &mut [u8]) -> Result<(), Refusal>
    requires { (h.frames ≤ length card.old) × (h.frames ≤ max_frames) }
    ensures { (number_in result ≡ part_fault h.edition s.now h.cards h.frames)
        × (card.new ≡ cards_read h.edition s.now h.cards h.frames card.old) }
{
    let n = usize::from(h.frames);
    let bytes = editions::line_digits(h.edition) + 1;
    let whole = s.len() / bytes;
    if whole < n {
        let before_end = read_edition(digits, s, h, whole, card);
        return Err(not_passing(digits, s, h, before_end));
    }
    let passing = read_edition(digits, s, h, n, card);
    if passing < n {
        return Err(not_passing(digits, s, h, passing));
    }
    if bytes * n < s.len() {
        return Err(Refusal::BytesFollow);
    }
    Ok(())
}

// The capture second of the frame at a place of the list, read from its line.
pub fn second(digits: &Digits, s: &[u8], edition: u8, i: usize) -> u32
    requires { is_line s.now (line_bytes edition * i) (line_digits edition) ≡ true }
    ensures { result ≡ second_at edition s.now i }
{
    let width = editions::line_digits(edition);
    digits.number(
        s,
        (width + 1) * i + editions::CARD_DIGITS,
        width - editions::CARD_DIGITS,
    )
}
