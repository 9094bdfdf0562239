// Joined tickets: the answer, and the lent buffer afterwards.
use crate::{output, tables, turned_down};
use firmware::joins::dockplan_join;
use std::io;

// The two ways to call the join.
pub(crate) fn own(first: &[u8], second: &[u8], lent: &mut [u8]) -> (u8, usize) {
    turned_down::numbers(join::join(first, second, lent))
}

pub(crate) fn library(first: &[u8], second: &[u8], lent: &mut [u8]) -> (u8, usize) {
    let a = dockplan_join(first, second, lent);
    (a.refusal, a.bytes)
}

// The first ticket, and with it the second and a dot for each place that is lent, up to 64.
pub(crate) fn joined<F: Fn(&[u8], &[u8], &mut [u8]) -> (u8, usize)>(
    rt: &impl Print,
    first: &[u8],
    more: &[u8],
    call: F,
) -> io::Result<()>
    requires { F.IsAlwaysCallable call }
{
    let mut buffer = [b'.'; 64];
    let (second, dots) = tables::split_word(more);
    let places = dots.len();
    if let Some(lent) = buffer.get_mut(..places) {
        output::left(rt, first, 37)?;
        rt.print(" ")?;
        output::left(rt, second, 37)?;
        let (refusal, bytes) = call(first, second, lent);
        print!(rt; "{places:7}{refusal:9}{bytes:7}  ")?;
        output::left(rt, lent, 0)?;
    }
    Ok(())
}
