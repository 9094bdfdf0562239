// The three kinds of step, on a dock whose memory has a place for each frame.
// A frame's byte is its card, which is below 32, and 128 more while the frame is held.
// Record and memory stay two parameters, with the fact about both in four contracts: the record goes in and comes out by value, so a struct of both
// would be made and taken apart at each step, and its fact proved again, for that one clause.
ghost use Rattle.std.specs.Prelude.{◌≡◌, ◌≤◌, length};
ghost use Rattle.dock.specs.Records.{broken_off};
ghost use Rattle.dock.specs.Drive.{card_in, takes_buffer};
ghost use Rattle.dock.specs.Parts.{Advanced, Performed, HandedOver};

use crate::{Dock, Step};
use counting::Position;
use header::limits;

// The card in a frame's byte.
fn card_in(b: u8) -> usize
    ensures { result ≡ card_in b }
{
    usize::from(b % 32)
}

// A step against the rules: nothing but this changes, now and later.
fn break_off(dock: Dock) -> Dock
    ensures { result ≡ broken_off dock }
{
    Dock {
        broken: true,
        ..dock
    }
}

// Whether a read of the frame at p, whose byte is b, takes a buffer: it is neither held nor handed over. Where a frame is not held, fewer
// than all are; this is asked too, so that the count stays in its range whatever is handed in.
fn takes_buffer(dock: Dock, p: Position, b: u8) -> bool
    ensures { result ≡ takes_buffer dock p.0 b }
{
    b < 128 && dock.delivered <= p.0 && dock.holding < dock.frames
}

// The read of a frame uses its card's turn.
fn read_frame(dock: Dock, p: Position, memory: &mut [u8]) -> Dock
    requires { dock.frames ≤ length memory.old }
    ensures { Performed dock (Step.Read p) memory.old result memory.new }
{
    let i = p.0;
    if dock.frames <= i {
        return break_off(dock);
    }
    let at = usize::from(i);
    let b = memory[at];
    let c = card_in(b);
    let mut d = dock;
    if d.busy[c] {
        return break_off(dock);
    }
    d.busy[c] = true;
    d.reading = true;
    if takes_buffer(dock, p, b) {
        memory[at] = b + 128;
        d.holding += 1;
        return d;
    }
    d
}

// A drop frees the buffer of a held frame.
fn drop_frame(dock: Dock, p: Position, memory: &mut [u8]) -> Dock
    requires { dock.frames ≤ length memory.old }
    ensures { Performed dock (Step.Drop p) memory.old result memory.new }
{
    let i = p.0;
    if dock.frames <= i {
        return break_off(dock);
    }
    if dock.reading {
        return break_off(dock);
    }
    let at = usize::from(i);
    let b = memory[at];
    if b < 128 || dock.holding == 0 {
        return dock;
    }
    memory[at] = b - 128;
    Dock {
        holding: dock.holding - 1,
        ..dock
    }
}

// While the next frame is held, it is handed over. Answers how many are handed over then.
fn hand_over(from: u16, frames: u16, memory: &mut [u8]) -> u16
    requires { frames ≤ length memory.old }
    ensures { HandedOver from frames memory.old result memory.new }
{
    for n in from..frames {
        let at = usize::from(n);
        let b = memory[at];
        if b < 128 {
            return n;
        }
        memory[at] = b - 128;
    }
    from.max(frames)
}

// The end of a cycle costs the frames that it hands over, and every card may read again.
fn end_cycle(dock: Dock, memory: &mut [u8]) -> Dock
    requires { dock.frames ≤ length memory.old }
    ensures { Performed dock Step.End memory.old result memory.new }
{
    if dock.pool < dock.holding {
        return break_off(dock);
    }
    let n = hand_over(dock.delivered, dock.frames, memory);
    Dock {
        delivered: n,
        holding: dock.holding.saturating_sub(n - dock.delivered),
        ended: dock.ended.saturating_add(1),
        broken: false,
        reading: false,
        busy: [false; limits::CARDS],
        ..dock
    }
}

// One step. Nothing changes a dock that is broken off.
pub(crate) fn advance(dock: Dock, step: Step, memory: &mut [u8]) -> Dock
    requires { dock.frames ≤ length memory.old }
    ensures { Advanced dock step memory.old result memory.new }
{
    if dock.broken {
        return dock;
    }
    match step {
        Step::Read(p) => read_frame(dock, p, memory),
        Step::Drop(p) => drop_frame(dock, p, memory),
        Step::End => end_cycle(dock, memory),
    }
}
