// Tickets joined as request 2026-04 tells it, for all pairs of short edition 02 reads on 2 cards with four seconds, so that every order comes up in
// which 3 frames and 3 can be joined; and the cycles of a joined ticket, which are never fewer than those of either.
ghost use Rattle.std.specs.Prelude.{◌≡◌, ◌+◌, ◌*◌, ◌≤◌, length};

use crate::report::{Report, Topic};
use crate::tickets::{FRAMES, digit};
use crate::{cycles, lists};
use std::io;

// The four seconds; and how many kinds of frames there are, with one of them and one of two cards.
const SECONDS: u8 = 4;

const KINDS: u64 = 8;

// The bytes of a ticket of 6 frames.
const BYTES: usize = 81;

// A frame: which of the seconds it has, and its card.
#[derive(Clone, Copy)]
struct Frame {
    second: u8,
    card: u8,
}

impl Frame {
    // The frame of this number among the kinds of frames.
    fn new(number: u8) -> Frame {
        Frame {
            second: number / 2,
            card: number % 2,
        }
    }
}

// Two tickets: how many frames each has, the frames of the first and then those of the second in one list, and their pool of m.
#[derive(Clone, Copy)]
struct Pair {
    first: usize,
    second: usize,
    frames: [Frame; FRAMES],
    m: u8,
    ghost short: { first + second ≤ 6 },
}

impl Pair {
    fn first(&self) -> &[Frame]
        ensures { length result.now ≡ self.now.first }
    {
        &self.frames[..self.first]
    }

    fn second(&self) -> &[Frame]
        ensures { length result.now ≡ self.now.second }
    {
        &self.frames[self.first..self.first + self.second]
    }

    fn both(&self) -> &[Frame]
        ensures { length result.now ≡ self.now.first + self.now.second }
    {
        &self.frames[..self.first + self.second]
    }
}

// Whether a ticket's seconds do not fall.
fn timed(frames: &[Frame]) -> bool {
    frames.is_sorted_by_key(|frame| frame.second)
}

// The frames of the joined ticket: those of each second in turn, first the first ticket's and then the second's, each ticket's in its order.
fn own_join(both: &[Frame]) -> [Frame; FRAMES] {
    let mut joined = [Frame::new(0); FRAMES];
    let mut length = 0;
    for second in 0..SECONDS {
        for frame in both {
            if frame.second == second && length < FRAMES {
                joined[length] = *frame;
                length += 1;
            }
        }
    }
    joined
}

// The bytes of a ticket of n frames.
fn bytes_of(n: usize) -> usize
    requires { n ≤ 6 }
    ensures { result ≤ 81 }
{
    15 + 11 * n
}

// The text of a ticket of these frames, followed by more lines, up to 6. The seconds are A to D, or a to d, as one of their 8 digits, which is another
// one for each pool; the other digits are 0.
fn text_of(frames: &[Frame], m: u8, letter: u8) -> [u8; BYTES]
    requires { length frames.now ≤ 6 }
{
    let mut text =
        *b"02000200000000\n0000000000\n0000000000\n0000000000\n0000000000\n0000000000\n0000000000\n";
    let column = 18 + 3 * usize::from(m % 3);
    text[9] = digit(b'0', m);
    // It fits: `try_from` would be a Result that is never an Err.
    text[13] = digit(b'0', frames.len() as u8);
    for (i, frame) in frames.iter().enumerate() {
        text[11 * i + 16] = digit(b'0', frame.card);
        text[11 * i + column] = digit(letter, frame.second);
    }
    text
}

// An answer to a join: how many bytes it has, or the number of a refusal; and what stands in the buffer then.
#[derive(Clone, Copy, Debug, PartialEq, Eq)]
struct Joined {
    bytes: Result<usize, u8>,
    buffer: [u8; BYTES],
}

// What the product joins, in a lent buffer of dots.
fn product_join(first: &[u8], second: &[u8]) -> Joined {
    let mut buffer = [b'.'; BYTES];
    let bytes = join::join(first, second, &mut buffer).map_err(u8::from);
    Joined { bytes, buffer }
}

// The joined ticket as it is to be: in upper case, and behind it the dots that were lent.
fn wanted(pair: &Pair) -> Joined {
    let both = pair.both();
    let bytes = bytes_of(both.len());
    let text = text_of(&own_join(both)[..both.len()], pair.m, b'A');
    let mut buffer = [b'.'; BYTES];
    buffer[..bytes].copy_from_slice(&text[..bytes]);
    Joined {
        bytes: Ok(bytes),
        buffer,
    }
}

// T of a joined ticket: all three are accepted, and it is not below T of either ticket.
fn compare_cycles<P: Print>(
    report: &mut Report<'_, P>,
    first: &[u8],
    second: &[u8],
    joined: &[u8],
) -> io::Result<()> {
    let t = cycles(joined);
    let (a, b) = (cycles(first), cycles(second));
    // A ticket that is refused has no T, and None would be below every T.
    let not_fewer = a.is_some() && a <= t && b.is_some() && b <= t;
    report.compare(Topic::JoinedCycles, t, true, not_fewer)
}

// One pair, whose tickets are written lower case.
fn compare_pair<P: Print>(report: &mut Report<'_, P>, pair: &Pair) -> io::Result<()> {
    let before = report.written;
    let texts = text_of(pair.first(), pair.m, b'a');
    let others = text_of(pair.second(), pair.m, b'a');
    let first = &texts[..bytes_of(pair.first)];
    let second = &others[..bytes_of(pair.second)];
    let got = product_join(first, second);
    report.compare(Topic::Joins, "the pair", wanted(pair), got)?;
    compare_cycles(
        report,
        first,
        second,
        &got.buffer[..bytes_of(pair.first + pair.second)],
    )?;
    if report.written != before {
        report.write(first)?;
        report.write(second)?;
    }
    Ok(())
}

// All pairs of lists of that many frames, with pools 1 to 3.
fn compare_pairs<P: Print>(
    report: &mut Report<'_, P>,
    first: usize,
    second: usize,
) -> io::Result<()>
    requires { (first ≤ 3) × (second ≤ 3) }
{
    for number in 0..lists::how_many(first + second, KINDS) {
        let frames = lists::numbered(number, KINDS).map(Frame::new);
        for m in 1..4 {
            let pair = Pair {
                first,
                second,
                frames,
                m,
            };
            if timed(pair.first()) && timed(pair.second()) {
                compare_pair(report, &pair)?;
            }
        }
    }
    Ok(())
}

// All pairs of lists of up to 3 frames. There are 1, 4 * 2, 10 * 4 and 20 * 8 lists of 0 to 3 frames, for their seconds and cards: 209, and so 43,681
// pairs.
pub(crate) fn compare_all<P: Print>(report: &mut Report<'_, P>) -> io::Result<()> {
    for second in 0..4 {
        for first in 0..4 {
            compare_pairs(report, first, second)?;
        }
    }
    Ok(())
}
