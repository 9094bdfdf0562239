// The ticket's text: what it says, or the number of the one refusal that it gets. Everything that takes a ticket goes through here.
#![tactic(auto)]

ghost use Rattle.std.specs.Prelude.{◌≡◌, ◌≤◌, length};
ghost use Rattle.refusals.specs.Numbers.{told, number_or_0};
ghost use Rattle.header.specs.Editions.{line_digits};
ghost use Rattle.header.specs.Heading.{edition_of, heading};
ghost use Rattle.header.specs.Numbers.{numbers_of};
ghost use Rattle.header.specs.Limits.{max_frames};
ghost use Rattle.ticket.specs.Grounds.{ReadAs};
ghost use Rattle.ticket.specs.Part.{address};
ghost use Rattle.ticket.specs.Seconds.{seconds_of, second_of};
ghost use Rattle.ticket.specs.Ticket.{parse, answer_in, read_into, ticket_of, header_in, numbers_in, refusal_of, counts_of};
ghost use Rattle.ticket.specs.Ticket.{line_refusal_of, line_start, line_of, line_place};

use counting::Position;
use header::{Header, editions, limits};
use refusals::Refusal;
use text::read::Digits;

// A ticket that is accepted. The card of frame i stands at place i; places past the last frame are 0.
#[derive(Clone, Copy)]
pub struct Ticket {
    pub header: Header,
    pub card: [u8; limits::FRAMES],
}

// Reads the frame lines of a ticket whose header is accepted.
fn read_part(t: &[u8], h: Header, card: &mut [u8]) -> Result<Header, Refusal>
    requires { (heading t.now ≡ Ok h) × (max_frames ≤ length card.old) }
    ensures { (told result ≡ answer_in (parse t.now)) × (card.new ≡ read_into t.now card.old) }
{
    frame_lines::read_lines(&Digits::new(), &t[15..], h, card)?;
    Ok(h)
}

// Reads a ticket; memory has room for the longest list.
fn read_any(t: &[u8], card: &mut [u8]) -> Result<Header, Refusal>
    requires { max_frames ≤ length card.old }
    ensures { (told result ≡ answer_in (parse t.now)) × (card.new ≡ read_into t.now card.old) }
{
    let h = header::heading(t)?;
    read_part(t, h, card)
}

// Reads a ticket into lent memory, which then has the cards of the lines that pass at its front. `reads` is what a call that takes a ticket
// goes on with: a refusal, or the header and the list beside it.
pub fn read(t: &[u8], card: &mut [u8; limits::FRAMES]) -> Result<Header, Refusal>
    ensures answer { told result ≡ answer_in (parse t.now) }
    ensures numbers { numbers_of (told result) ≡ numbers_in (parse t.now) }
    ensures memory { card.new ≡ read_into t.now card.old }
    ensures reads { ReadAs t.now (told result) card.new }
{
    read_any(t, card)
}

// Reads a ticket by value.
pub fn parse(t: &[u8]) -> Result<Ticket, Refusal>
    ensures answer { told result ≡ ticket_of (parse t.now) }
    ensures numbers { numbers_of (header_in (told result)) ≡ numbers_in (parse t.now) }
{
    let mut card = [0u8; limits::FRAMES];
    let header = read(t, &mut card)?;
    Ok(Ticket { header, card })
}

// A ticket's refusal, none where it is accepted.
pub fn refusal(t: &[u8]) -> Option<Refusal>
    ensures { number_or_0 result ≡ refusal_of (parse t.now) }
{
    let mut card = [0u8; limits::FRAMES];
    read(t, &mut card).err()
}

// The refusal that goes with `line`: the ticket's own, or 16 where the position is not below the number of frames.
pub fn line_refusal(t: &[u8], p: Position) -> Option<Refusal>
    ensures { number_or_0 result ≡ line_refusal_of (parse t.now) p.0 }
{
    let mut card = [0u8; limits::FRAMES];
    match read(t, &mut card) {
        Err(refusal) => Some(refusal),
        Ok(h) => if p.0 < h.frames {
            None
        } else {
            Some(Refusal::NoSuchPosition)
        },
    }
}

// The digits of a line, by the edition that stands at the front of a ticket.
pub fn line_digits(t: &[u8]) -> usize
    ensures { result ≡ line_digits (edition_of t.now) }
{
    editions::line_digits(editions::low_edition(t))
}

// The byte of a ticket at which the line of the frame at a position begins.
pub fn line_start(t: &[u8], p: Position) -> usize
    ensures { result ≡ line_start t.now p.0 }
{
    15 + (line_digits(t) + 1) * usize::from(p.0)
}

// The line of the frame at a position: the digits of its card and, in edition 02, of its second, a part of the caller's ticket. Empty with a
// refusal.
// No Option: document 01 has the empty part there, and this call cannot fail.
pub fn line(t: &[u8], p: Position) -> &[u8]
    ensures line { result.now ≡ line_of t.now p.0 }
    ensures stands { result.ref_ptr ≡ address t.entry.ref_ptr (line_place t.now p.0) }
{
    if line_refusal(t, p).is_some() {
        return &t[0..0];
    }
    let at = line_start(t, p);
    let digits = line_digits(t);
    &t[at..at + digits]
}

// How many frames each of the 32 cards has; all 0 with a refusal.
// No Result: document 01 has zeros there, and this call cannot fail.
pub fn counts(t: &[u8]) -> [u16; limits::CARDS]
    ensures { result ≡ counts_of (parse t.now) }
{
    let mut card = [0u8; limits::FRAMES];
    match read(t, &mut card) {
        Err(_) => [0u16; limits::CARDS],
        Ok(h) => frame_lines::tally::tally(&card, h.frames),
    }
}

// The second at a position of a ticket that is accepted.
fn second_in(t: &[u8], h: Header, p: Position) -> u32
    requires { answer_in (parse t.now) ≡ Ok h }
    ensures { result ≡ second_of (seconds_of t.now) p.0 }
{
    if p.0 < h.frames {
        return frame_lines::second(&Digits::new(), &t[15..], h.edition, usize::from(p.0));
    }
    0
}

// The capture second of the frame at a position; 0 where there is none: in edition 01, past the last frame, and with a refusal.
// No Option: document 01 has 0 there, and this call cannot fail.
pub fn second(t: &[u8], p: Position) -> u32
    ensures { result ≡ second_of (seconds_of t.now) p.0 }
{
    let mut card = [0u8; limits::FRAMES];
    match read(t, &mut card) {
        Err(_) => 0,
        Ok(h) => second_in(t, h, p),
    }
}
