// What the tables are made of: lists of numbers, texts and tickets, written to standard output.
use std::fmt::Display;
use std::io;

// How wide the column of tickets is.
const TICKET: usize = 32;

// The first n places of a list, each at the right of a column; blank past the end of the list.
pub(crate) fn list<T: Display>(rt: &impl Print, a: &[T], n: usize, width: usize) -> io::Result<()> {
    for i in 0..n {
        match a.get(i) {
            Some(x) => print!(rt; "{x:>width$}")?,
            None => print!(rt; "{:width$}", "")?,
        }
    }
    Ok(())
}

pub(crate) fn yes_or_no(yes: bool) -> &'static str {
    if yes { "yes" } else { "no" }
}

// The numbers that belong to cards, as card:number, without those that stand for none.
pub(crate) fn of_cards(rt: &impl Print, numbers: &[u16], none: u16) -> io::Result<()> {
    if numbers.iter().all(|n| *n == none) {
        return rt.print(" none");
    }
    for (card, n) in numbers.iter().enumerate() {
        if *n != none {
            print!(rt; " {card}:{n}")?;
        }
    }
    Ok(())
}

// A text at the left of a column, with / for the end byte.
pub(crate) fn left(rt: &impl Print, t: &[u8], width: usize) -> io::Result<()> {
    for b in t {
        let shown = if *b == b'\n' { b'/' } else { *b };
        rt.write_all(&[shown])?;
    }
    let rest = width.saturating_sub(t.len());
    print!(rt; "{:rest$}", "")
}

// A ticket in its column.
pub(crate) fn ticket(rt: &impl Print, t: &[u8]) -> io::Result<()> {
    left(rt, if t.is_empty() { b"(nothing)" } else { t }, TICKET)
}
