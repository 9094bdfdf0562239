// The two numbers that every part of the planner speaks in, as types of their own. Counting by position, and the laws of sums and lists, are in
// specs/ and proofs/.
#![tactic(auto)]

ghost use Rattle.std.specs.Prelude.{◌≡◌};

// A cycle, counted from 1. In a plan, 0 stands for a frame that no cycle writes.
#[repr(C)]
#[derive(Clone, Copy, Debug, PartialEq, Eq, PartialOrd, Ord, Hash)]
pub struct Cycle(pub u16);

// A frame's position in the list, counted from 0.
#[repr(C)]
#[derive(Clone, Copy, Debug, PartialEq, Eq, PartialOrd, Ord, Hash)]
pub struct Position(pub u16);

// The place of a cycle in a table of cycles.
impl From<Cycle> for usize {
    ghost from_gives = { λ cycle place. place ≡ cycle.0 };

    fn from(cycle: Cycle) -> usize {
        usize::from(cycle.0)
    }
}
