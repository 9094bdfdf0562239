// The count in the pool rule: how many frames count beside one frame, up to m, and how many were looked at.
// A plan has up to six cycles, written as in checks.rt. The frame's position and m follow it, a byte each.
use crate::{output, tables};
use pool_counts::backlog::backlog;
use std::io;

// Both numbers, as a save or as a read: the flag is that of `backlog`, whose clause speaks of it.
fn count(rt: &impl Print, save: bool, plan: &[u16], i: usize, m: u16) -> io::Result<()> {
    if i < plan.len() && plan.len() <= 6 {
        let found = backlog(save, plan, i, m);
        print!(rt; "{:9}{:8}", found.count, found.looked)?;
    }
    Ok(())
}

pub(crate) fn counted(rt: &impl Print, text: &[u8], more: &[u8]) -> io::Result<()> {
    if text.len() <= 6 {
        let mut buffer = [0u16; 6];
        let plan = tables::read_numbers(text, &mut buffer, tables::number);
        let position = tables::number_at(more, 0);
        let m = tables::number_at(more, 1);
        output::list(rt, plan, 6, 6)?;
        print!(rt; "{position:10}{m:7}")?;
        count(rt, true, plan, usize::from(position), m)?;
        count(rt, false, plan, usize::from(position), m)?;
    }
    Ok(())
}
