// The first fault of a plan for a list of cards: the lowest position at fault, and of its faults the first; or nothing.
// Cards and plan stay two slices in all of this crate, with `Checking` in the contracts, as a struct of both is no plainer: the cards are the
// reader's and the plan is the caller's, so it would be made for each check, and as the definitions take the two apart (`clear_of cards plan n`),
// each clause and each loop would read it by its two fields.
#![tactic(auto)]

ghost use Rattle.std.specs.Prelude.{◌≡◌, true};
ghost use Rattle.pool_counts.specs.Pools.{roomy_of};
ghost use Rattle.plan_faults.specs.Faults.{Checking, clear_of, Decided, first_fault};
ghost use Rattle.plan_faults.specs.Searches.{ClearTo, Front, LowCycles};

mod by_sets;
mod rising;
mod searched;

use counting::Position;
use header::limits;

// The lowest position at fault with the first of its faults.
#[derive(Clone, Copy)]
pub enum Found {
    CycleMissing(Position),
    CardShared(Position),
    PoolOverfull(Position),
}

// How many frames, from the first on, are each after all earlier ones of their card. Those of our own plans all are.
fn rising_frames(cards: &[u8], plan: &[u16]) -> usize
    requires { Checking cards.now plan.now }
    ensures { ClearTo cards.now plan.now result }
{
    // by card: no array runs beside it
    let mut latest = [0u16; limits::CARDS];
    rising::rising(cards, plan, 0, &mut latest)
}

// The clear frames among the first n, where the first `from` are: looked up in a table where no cycle is over 4,096, and else searched for.
// `low` picks one of the two, once a call, and the clauses speak of it. `from` and `n` are places in the list and no lengths of slices: a frame
// is compared with those before `from` too, and the clauses have both (`Front cards plan from n`).
fn clear_among(low: bool, cards: &[u8], plan: &[u16], from: usize, n: usize) -> usize
    requires { Checking cards.now plan.now × (low ≡ true → LowCycles plan.now) × Front cards.now plan.now from n }
    ensures { result ≡ clear_of cards.now plan.now n }
{
    if low {
        return by_sets::clear(cards, plan, from, n);
    }
    searched::clear(cards, plan, n)
}

// How many frames are clear, that is, have a cycle that no earlier frame of their card has, up to the first that is not: as far as it matters for the
// first fault, where `roomy` frames have room in the pool. `low` says that no cycle is over 4,096; it is handed on to `clear_among`. `save` picks
// nothing here: it is what the clauses speak of (`roomy_of save`, `Decided save`).
pub fn clear(save: bool, low: bool, cards: &[u8], plan: &[u16], m: u16, roomy: usize) -> usize
    requires { Checking cards.now plan.now × (low ≡ true → LowCycles plan.now) × (roomy ≡ roomy_of save m plan.now) }
    ensures { Decided save m cards.now plan.now result roomy }
{
    let n = cards.len();
    let first = rising_frames(cards, plan);
    if roomy < first {
        return first;
    }
    if roomy < n {
        return clear_among(low, cards, plan, first, roomy + 1);
    }
    if first == n {
        return n;
    }
    clear_among(low, cards, plan, first, n)
}

// The first fault, where `clear` frames without a card fault and `roomy` frames with room decide it. `save` picks nothing here either: the clauses
// speak of it. The casts lose nothing, as both numbers are at most 4,096: a `try_from` would answer a Result that is never an Err.
pub fn first_fault(
    save: bool,
    cards: &[u8],
    plan: &[u16],
    m: u16,
    clear: usize,
    roomy: usize,
) -> Option<Found>
    requires { Checking cards.now plan.now × Decided save m cards.now plan.now clear roomy }
    ensures { result ≡ first_fault save m cards.now plan.now }
{
    if roomy < clear {
        return Some(Found::PoolOverfull(Position(roomy as u16)));
    }
    if clear == cards.len() {
        return None;
    }
    let p = Position(clear as u16);
    if plan[clear] == 0 {
        return Some(Found::CycleMissing(p));
    }
    Some(Found::CardShared(p))
}
