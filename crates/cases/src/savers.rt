// The saver: each call on a line, with its answer and the record that comes back. The calls are the saver's own, or those of the library.
// A new saver is written by its cards and its pool: a digit, C for 32, D for 33, P for 192, Q for 193, R for 1,024, S for 1,025, L for the largest
// number. Then come calls: c is a closing cycle, a digit a save on that card, L a save on card 255, and m 4,095 saves on card 0 that are not shown.
ghost use Rattle.saver.specs.Calls.{Given};
ghost use Rattle.std.specs.Prelude.{IfOk};

use crate::{output, tables};
use firmware::savers::{dockplan_saver_close, dockplan_saver_new, dockplan_saver_save};
use saver::{Answer, Saver};
use std::io;

// Whose calls are made: the saver's own, or those of the library. Three calls with different arguments and columns: as closures they'd be no plainer.
#[derive(Clone, Copy)]
pub(crate) enum Calls {
    Own,
    Library,
}

// The refusal, the cycle made, and the record.
fn record(rt: &impl Print, a: &Answer) -> io::Result<()> {
    let s = a.saver;
    let closing = output::yes_or_no(s.closing);
    print!(rt; "{:8}{:8}{:8}{:8}", a.refusal, a.cycle.0, s.cards, s.pool)?;
    print!(rt; "{:8}{:8}{:8}{closing:>8}  ", s.taken, s.made.0, s.waiting)
}

// The answer, and the entries of the cards that wrote, as card:position; 65,535 is no position.
fn answered(rt: &impl Print, a: Answer) -> io::Result<Saver>
    requires { Given a.saver }
    ensures { IfOk result (λ made. Given made) }
{
    record(rt, &a)?;
    // C has no Option: the answer is the struct that C gets.
    output::of_cards(rt, &a.written.map(|p| p.0), 65535)?;
    Ok(a.saver)
}

fn open(rt: &impl Print, cards: u8, pool: u16, calls: Calls) -> io::Result<Saver>
    ensures { IfOk result (λ made. Given made) }
{
    rt.print("new  ")?;
    match calls {
        Calls::Own => {
            print!(rt; "{cards:6}{pool:6}")?;
            answered(rt, Saver::new(cards, pool))
        }
        Calls::Library => answered(rt, dockplan_saver_new(cards, pool)),
    }
}

// 4,095 saves on card 0, which are not shown.
fn many(s: Saver) -> Saver
    requires { Given s }
    ensures { Given result }
{
    let mut now = s;
    for _ in 0..4095 {
        now = now.save(0).saver;
    }
    now
}

fn close(rt: &impl Print, s: Saver, calls: Calls) -> io::Result<Saver>
    requires { Given s }
    ensures { IfOk result (λ made. Given made) }
{
    rt.print("\nclose")?;
    match calls {
        Calls::Own => {
            print!(rt; "{:12}", "")?;
            answered(rt, s.close())
        }
        Calls::Library => answered(rt, dockplan_saver_close(s)),
    }
}

fn save(rt: &impl Print, s: Saver, card: u8, calls: Calls) -> io::Result<Saver>
    requires { Given s }
    ensures { IfOk result (λ made. Given made) }
{
    rt.print("\nsave ")?;
    match calls {
        Calls::Own => {
            print!(rt; "{card:6}{:6}", "")?;
            answered(rt, s.save(card))
        }
        Calls::Library => answered(rt, dockplan_saver_save(s, card)),
    }
}

// A byte picks the call: each byte that is none of the two letters is a save on a card, so that an enum of the calls would be made for one match.
fn call(rt: &impl Print, s: Saver, b: u8, calls: Calls) -> io::Result<Saver>
    requires { Given s }
    ensures { IfOk result (λ made. Given made) }
{
    match b {
        b'm' => Ok(many(s)),
        b'c' => close(rt, s, calls),
        _ => save(rt, s, tables::card(b), calls),
    }
}

// A new saver, and calls of it. The library's calls are shown for the saver of document 01's first save, list 0 0 1 with a pool of 2, with a card
// that is not there, a save too late and a close too many; then for a saver that is refused.
pub(crate) fn series(rt: &impl Print, new: &[u8], text: &[u8], calls: Calls) -> io::Result<()> {
    // Cut off on purpose: `try_from` would be a Result that is never an Err.
    let cards = (tables::number_at(new, 0) % 256) as u8;
    let mut now = open(rt, cards, tables::number_at(new, 1), calls)?;
    for b in text {
        now = call(rt, now, *b, calls)?;
    }
    Ok(())
}
