// Long lists joined. A ticket of the table is a header; its lines are made in long_lists.rt.
ghost use Rattle.std.specs.Prelude.{◌≤◌};

use crate::long_lists::{self, Layout};
use crate::{output, tables, turned_down};
use plain_answers::tickets::refusal_number;
use std::io;

// The bytes of an edition 02 ticket of 4,096 frames, and a place for one more.
const LONG: usize = 15 + 11 * 4096;

const PLACES: usize = LONG + 11;

// The bytes of the ticket with this header.
fn bytes_of(header: &[u8]) -> usize
    ensures { result ≤ 45071 }
{
    match header::heading(header) {
        Ok(h) => 15 + 11 * (usize::from(h.frames) % 4097),
        Err(_) => 0,
    }
}

// The answer, the checksum of the lent buffer afterwards, and the refusal of the joined ticket when it is read.
fn shown(rt: &impl Print, first: &[u8], second: &[u8], lent: &mut [u8]) -> io::Result<()> {
    let a = join::join(first, second, lent);
    let (refusal, bytes) = turned_down::numbers(a);
    let sum = long_lists::checksum(lent);
    print!(rt; "{:6}{refusal:9}{bytes:7}{sum:10}", lent.len())?;
    if let Ok(bytes) = a {
        if let Some(joined) = lent.get(..bytes) {
            print!(rt; "{:7}", refusal_number(ticket::refusal(joined)))?;
        }
    }
    Ok(())
}

// The header of the first ticket, and with it that of the second, and a dot where no place is lent.
pub(crate) fn joined(rt: &impl Print, header: &[u8], more: &[u8]) -> io::Result<()> {
    let (other, dot) = tables::split_word(more);
    output::left(rt, header, 17)?;
    output::left(rt, other, 17)?;
    let first: [u8; LONG] = long_lists::ticket_of(header, Layout::First);
    let second: [u8; LONG] = long_lists::ticket_of(other, Layout::Second);
    let mut buffer = [b'.'; PLACES];
    let places = if dot.is_empty() { PLACES } else { 0 };
    shown(
        rt,
        &first[..bytes_of(header)],
        &second[..bytes_of(other)],
        &mut buffer[..places],
    )
}
