// The tables: one text. In it # ends a text that is printed as it stands, and | ends an entry, which is shown. > ends a word that says how the
// entries after it are shown, by its first letter. An entry is a ticket, a new saver, a plan or the patterns of the hub; what follows the first
// space in it goes with that: a plan, steps of the dock, calls of the saver, the layout of a long list, a frame's position and m, a dot for each
// place that a lent buffer has less, or the ticket to join it with or the cameras of the hub, and after another space dots for the places lent.
ghost use Rattle.std.specs.Prelude.{◌≤◌, length};

use crate::savers::Calls;
use crate::{
    checks, counts, docks, hub_plans, hubs, joins, library, long_hubs, long_joins, long_lists,
    plans, printed, savers, tickets, turned_down, walks,
};
use std::io;

// How an entry is shown.
#[derive(Clone, Copy)]
enum Row {
    Accepted,
    Lines,
    Seconds,
    Walked,
    WalkedFar,
    Refused,
    TooShort,
    Planned,
    LongPlanned,
    Printed,
    Joined,
    LibraryJoined,
    LongJoined,
    Gathered,
    LibraryGathered,
    HubPlanned,
    LongGathered,
    Checked,
    Counted,
    LibraryCalled,
    Driven,
    Saved(Calls),
}

impl Row {
    // By the first letter of a word; a capital is for a long list or the library's calls.
    fn named(word: &[u8]) -> Option<Row> {
        let row = match word.first()? {
            b'a' => Row::Accepted,
            b'l' => Row::Lines,
            b'e' => Row::Seconds,
            b'w' => Row::Walked,
            b'W' => Row::WalkedFar,
            b'r' => Row::Refused,
            b't' => Row::TooShort,
            b'p' => Row::Planned,
            b'P' => Row::LongPlanned,
            b'b' => Row::Printed,
            b'j' => Row::Joined,
            b'J' => Row::LibraryJoined,
            b'L' => Row::LongJoined,
            b'g' => Row::Gathered,
            b'G' => Row::LibraryGathered,
            b'h' => Row::HubPlanned,
            b'H' => Row::LongGathered,
            b'c' => Row::Checked,
            b'n' => Row::Counted,
            b'C' => Row::LibraryCalled,
            b'd' => Row::Driven,
            b's' => Row::Saved(Calls::Own),
            b'S' => Row::Saved(Calls::Library),
            _ => return None,
        };
        Some(row)
    }

    // A `match`, not a table of functions: the kind is known only when the text is read, and function pointers may not be handed out.
    fn show(self, rt: &impl Print, t: &[u8], more: &[u8]) -> io::Result<()> {
        match self {
            Row::Accepted => tickets::accepted(rt, t),
            Row::Lines => tickets::lines(rt, t),
            Row::Seconds => tickets::seconds(rt, t),
            Row::Walked => walks::walked(rt, t),
            Row::WalkedFar => walks::walked_far(rt, t, more),
            Row::Refused => turned_down::refused(rt, t),
            Row::TooShort => turned_down::too_short(rt, t),
            Row::Planned => plans::planned(rt, t, more),
            Row::LongPlanned => long_lists::planned(rt, t, more),
            Row::Printed => printed::printed(rt, t, more),
            Row::Joined => joins::joined(rt, t, more, joins::own),
            Row::LibraryJoined => joins::joined(rt, t, more, joins::library),
            Row::LongJoined => long_joins::joined(rt, t, more),
            Row::Gathered => hubs::gathered(rt, t, more, hubs::own),
            Row::LibraryGathered => hubs::gathered(rt, t, more, hubs::library),
            Row::HubPlanned => hub_plans::planned(rt, t, more),
            Row::LongGathered => long_hubs::gathered(rt, t, more),
            Row::Checked => checks::checked(rt, t, more),
            Row::Counted => counts::counted(rt, t, more),
            Row::LibraryCalled => library::called(rt, t, more),
            Row::Driven => docks::driven(rt, t, more),
            Row::Saved(calls) => savers::series(rt, t, more, calls),
        }
    }
}

// What stands before the first space of a text, and what follows it.
pub(crate) fn split_word(text: &[u8]) -> (&[u8], &[u8]) {
    match text.iter().position(|b| *b == b' ') {
        Some(at) => (&text[..at], &text[at + 1..]),
        None => (text, &[]),
    }
}

// Shows an entry, and ends its last line.
fn show(rt: &impl Print, how: Option<Row>, entry: &[u8]) -> io::Result<()> {
    if let Some(row) = how {
        let (t, more) = split_word(entry);
        row.show(rt, t, more)?;
    }
    rt.print("\n")
}

// Prints each text and shows each entry. What stands after the last mark is neither.
pub(crate) fn each(rt: &impl Print, table: &[u8]) -> io::Result<()> {
    let mut how = None;
    for part in table.split_inclusive(|b| matches!(*b, b'#' | b'|' | b'>')) {
        match part.split_last() {
            Some((b'#', text)) => rt.write_all(text)?,
            Some((b'|', entry)) => show(rt, how, entry)?,
            Some((b'>', word)) => how = Row::named(word),
            _ => {}
        }
    }
    Ok(())
}

// The number that a byte of an entry stands for: a digit, or a letter for one at a limit. The letters stand for numbers, and an enum of them would be
// turned into these at once.
pub(crate) fn number(b: u8) -> u16 {
    match b {
        b'C' => 32,
        b'D' => 33,
        b'P' => 192,
        b'Q' => 193,
        b'R' => 1024,
        b'S' => 1025,
        b'J' => 4095,
        b'K' => 4096,
        b'M' => 4097,
        b'L' => 65535,
        _ => u16::from(b % 16),
    }
}

// The same as a card, 255 for L.
pub(crate) fn card(b: u8) -> u8 {
    // Cut off on purpose: `try_from` would be a Result that is never an Err.
    (number(b) % 256) as u8
}

// The number at a place of an entry, 0 past its end.
pub(crate) fn number_at(text: &[u8], i: usize) -> u16 {
    text.get(i).map_or(0, |b| number(*b))
}

// Puts the numbers that a text stands for into a buffer, as far as both go, and gives the part that was filled.
pub(crate) fn read_numbers<'a, T: Drop, F: Fn(u8) -> T>(
    text: &[u8],
    buffer: &'a mut [T],
    number: F,
) -> &'a [T]
    requires { F.IsAlwaysCallable number }
    ensures { length result.now ≤ length buffer.old }
{
    let n = text.len().min(buffer.len());
    let front = &mut buffer[..n];
    for (place, b) in front.iter_mut().zip(text) {
        *place = number(*b);
    }
    front
}
