// One showing from two tickets: two edition 02 read tickets are joined into one, sorted by capture second.
#![tactic(auto)]

ghost use Rattle.std.specs.Prelude.{◌≡◌, ◌≤◌, length};
ghost use Rattle.std.proofs.lemmas.List.Edits.{sets};
ghost use Rattle.refusals.specs.Numbers.{told, number_in};
ghost use Rattle.header.specs.Heading.{header_bytes};
ghost use Rattle.ticket.specs.Print.{header_text};
ghost use Rattle.join.specs.Join.{joinable, join_of, answer_of, buffer_after, Answered};
ghost use Rattle.join.specs.Numbers.{numbers_of};
ghost use Rattle.join.specs.Showing.{Showing};
ghost use Rattle.join.specs.Steps.{HasHeader, pair_refusal};

use header::{Header, editions, limits};
use refusals::Refusal;
use text::write::DigitTexts;

// The bytes of a header, and of a line of edition 02, with their end bytes.
const HEADER: usize = 15;

const LINE: usize = editions::CARD_DIGITS + editions::SECOND_DIGITS + 1;

// Whether two tickets can be joined: both are edition 02 reads, of the same cards and pool.
fn joinable(g: Header, h: Header) -> bool
    ensures { result ≡ joinable g h }
{
    if g.edition != editions::EDITION_2 {
        return false;
    }
    if g.mode != limits::MODE_READ {
        return false;
    }
    if h.edition != editions::EDITION_2 {
        return false;
    }
    if h.mode != limits::MODE_READ {
        return false;
    }
    if g.cards != h.cards {
        return false;
    }
    g.pool == h.pool
}

// Whether two tickets that are read are refused, with a buffer of so many places: 18, then 19, then 10.
fn refused(g: Header, h: Header, places: usize) -> Result<(), Refusal>
    ensures { number_in result ≡ pair_refusal g h places }
{
    if joinable(g, h) {
        let frames = (g.frames as usize) + (h.frames as usize);
        if limits::FRAMES < frames {
            return Err(Refusal::JoinedTooLong);
        }
        if places < HEADER + LINE * frames {
            return Err(Refusal::NoRoom);
        }
        return Ok(());
    }
    Err(Refusal::Unlike)
}

// A header, at the front of a buffer.
fn put_header(out: &mut [u8], h: Header)
    requires { header_bytes ≤ length out.old }
    ensures { out.new ≡ sets out.old 0 (header_text h) }
{
    let digits = DigitTexts::new();
    digits.put::<2>(out, 0, u32::from(h.edition));
    digits.put::<2>(out, 2, u32::from(h.mode));
    digits.put::<2>(out, 4, u32::from(h.cards));
    digits.put::<4>(out, 6, u32::from(h.pool));
    digits.put::<4>(out, 10, u32::from(h.frames));
    out[14] = text::END;
}

// Joins two tickets that are accepted, and answers the bytes of the joined ticket.
fn join_read(
    first: &[u8],
    g: Header,
    second: &[u8],
    h: Header,
    out: &mut [u8],
) -> Result<usize, Refusal>
    requires { HasHeader first.now g × HasHeader second.now h }
    ensures { Answered (join_of first.now second.now) out.old out.new (told result) }
{
    refused(g, h, out.len())?;
    let frames = g.frames + h.frames;
    put_header(
        out,
        Header {
            edition: editions::EDITION_2,
            mode: limits::MODE_READ,
            cards: g.cards,
            pool: g.pool,
            frames,
        },
    );
    // the two counts, and the bytes below, widen by `as`: by `usize::from`, as tried, each of five answers has to say once more that the number is the same
    merged_lines::put_merged(
        &first[15..],
        g.frames as usize,
        &second[15..],
        h.frames as usize,
        out,
        HEADER,
    );
    Ok(HEADER + LINE * (frames as usize))
}

// Joins two tickets: writes the joined ticket over the front of the buffer and answers how many bytes it has; later places keep their content.
// A refusal changes nothing. `showing` is what request 2026-04 promises of the ticket that now stands in the buffer.
pub fn join(first: &[u8], second: &[u8], out: &mut [u8]) -> Result<usize, Refusal>
    ensures answer { told result ≡ answer_of (join_of first.now second.now) (length out.old) }
    ensures buffer { out.new ≡ buffer_after (join_of first.now second.now) out.old }
    ensures numbers { numbers_of (told result) ≡ numbers_of (answer_of (join_of first.now second.now) (length out.old)) }
    ensures showing { Showing first.now second.now (numbers_of (told result)).refusal (numbers_of (told result)).bytes out.new }
{
    let mut card = [0u8; limits::FRAMES];
    let g = ticket::read(first, &mut card)?;
    let h = ticket::read(second, &mut card)?;
    join_read(first, g, second, h, out)
}
