// The saver: frames are saved one by one, as they come, and written as greedy_writing writes them. The record goes into each call by value
// and the new one comes back.
#![tactic(auto)]

ghost use Rattle.std.specs.Prelude.{◌≡◌};
ghost use Rattle.saver.specs.Calls.{new_of, save_of, close_of, Given};
ghost use Rattle.saver.specs.Follows.{SaveFollows, CloseFollows};

mod steps;

use counting::{Cycle, Position};
use header::limits;
use refusals::Refusal;

// The frames in the pool stand at the first places of `card` and `position`, oldest first; the places after them are 0.
// C keeps the record between calls: that is why it has two tables of fixed size, with the number of waiting frames beside them.
#[repr(C)]
#[derive(Clone, Copy, PartialEq, Eq)]
pub struct Saver {
    pub cards: u8,
    pub pool: u16,
    // how many frames have been saved: the next one gets Position(taken)
    pub taken: u16,
    // how many cycles have been made: the number of the last one, 0 for none
    pub made: Cycle,
    // how many frames wait in the pool
    pub waiting: u16,
    pub closing: bool,
    pub card: [u8; limits::POOL],
    pub position: [Position; limits::POOL],
}

// What a call gives back: the number of a refusal, 0 for none; the cycle that it made, 0 for none; for each card the position written in
// that cycle, 65,535 for none; and the new record.
#[repr(C)]
#[derive(Clone, Copy)]
pub struct Answer {
    // a number, as C has no Result
    pub refusal: u8,
    pub cycle: Cycle,
    // numbers, as C has no Option
    pub written: [Position; limits::CARDS],
    pub saver: Saver,
}

impl Saver {
    // A new saver, or refusal 4 or 5 with a record that takes no frame.
    pub fn new(cards: u8, pool: u16) -> Answer
        ensures answer { result ≡ new_of cards pool }
        ensures given { Given result.saver }
    {
        if cards < 1 {
            return steps::no_saver(Refusal::CardCount);
        }
        if limits::MAX_CARDS < cards {
            return steps::no_saver(Refusal::CardCount);
        }
        if pool < 1 {
            return steps::no_saver(Refusal::PoolSize);
        }
        if limits::MAX_POOL < pool {
            return steps::no_saver(Refusal::PoolSize);
        }
        steps::quiet(steps::empty(cards, pool, false))
    }

    // The next frame, on this card. A cycle is made first if the pool is full.
    // C hands the record in, so that `Given` stays a clause of this call and the next one: a type that holds it would ask more of callers.
    pub fn save(self, card: u8) -> Answer
        requires { Given self }
        ensures answer { result ≡ save_of self card }
        ensures given { Given result.saver }
        ensures greedy { SaveFollows self card result }
    {
        if self.closing {
            return steps::refused(Refusal::ClosingBegun, self);
        }
        if self.cards <= card {
            return steps::refused(Refusal::NoSuchCard, self);
        }
        if limits::MAX_FRAMES <= self.taken {
            return steps::refused(Refusal::SaverFull, self);
        }
        if self.waiting < self.pool {
            return steps::quiet(steps::enter(self, card));
        }
        steps::then_enter(steps::one_cycle(self), card)
    }

    // One closing cycle. The first one begins closing: no frame is taken from then on.
    pub fn close(mut self) -> Answer
        requires { Given self }
        ensures answer { result ≡ close_of self }
        ensures given { Given result.saver }
        ensures greedy { CloseFollows self result }
    {
        if self.waiting < 1 {
            return steps::refused(Refusal::NothingWaiting, self);
        }
        self.closing = true;
        steps::one_cycle(self)
    }
}
