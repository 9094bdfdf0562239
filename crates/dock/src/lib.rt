// The dock of document 01 as code, driven one step at a time. crates/dock_start starts it for a ticket's list.
#![tactic(auto)]

ghost use Rattle.std.specs.Prelude.{◌≡◌};
ghost use Rattle.refusals.specs.Numbers.{told};
ghost use Rattle.dock.specs.State.{new_dock};
ghost use Rattle.dock.specs.Drive.{drive_of, memory_driven, Follows};

mod steps;

use counting::Position;
use header::limits;
use refusals::Refusal;

// A step. Positions past the list are against the rules.
#[derive(Clone, Copy)]
pub enum Step {
    Read(Position),
    Drop(Position),
    End,
}

// What the dock keeps, but for the frames held: they are marked in lent memory, one byte for each frame.
#[derive(Clone, Copy)]
pub struct Dock {
    pub frames: u16,
    pub pool: u16,
    pub delivered: u16,
    pub holding: u16,
    pub ended: u32,
    pub broken: bool,
    // whether any card has read in this cycle, and which
    pub reading: bool,
    pub busy: [bool; limits::CARDS],
}

// An empty dock for a list of so many frames.
pub fn empty(pool: u16, frames: u16) -> Dock
    ensures { result ≡ new_dock pool frames }
{
    Dock {
        frames,
        pool,
        delivered: 0,
        holding: 0,
        ended: 0,
        broken: false,
        reading: false,
        busy: [false; limits::CARDS],
    }
}

// One step of the dock: the dock after it. A dock goes in by value, so that with a refusal the caller has it as it was. `answer` and `memory` say
// the whole outcome for every record, step and memory; `follows`, that it is the model's step.
pub fn drive(dock: Dock, step: Step, memory: &mut [u8]) -> Result<Dock, Refusal>
    ensures answer { told result ≡ drive_of dock memory.old step }
    ensures memory { memory.new ≡ memory_driven dock memory.old step }
    ensures follows { Follows dock step memory.old (told result) memory.new }
{
    if memory.len() < usize::from(dock.frames) {
        return Err(Refusal::NoRoom);
    }
    Ok(steps::advance(dock, step, memory))
}
