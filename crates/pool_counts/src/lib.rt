// The pool rule by counting: how many frames share the pool with a frame until its cycle, up to m; how many frames of a plan have room; and
// the peak of a read. Cycles may be as large as they like; crates/pool_table is quick up to cycle 4,096.
#![tactic(auto)]

pub mod backlog;
pub mod plans;

// How many frames have room, up to the first that has not; and the most buffers that one of them needs, which is the peak of a read where all
// have room. A save has no peak.
#[derive(Clone, Copy)]
pub struct Room {
    pub roomy: usize,
    pub peak: u16,
}
