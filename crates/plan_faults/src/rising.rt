// Frames that are each after all earlier ones of their card: such a frame has a cycle, and shares it with none.
ghost use Rattle.std.specs.Prelude.{◌≤◌, length};
ghost use Rattle.plan_faults.specs.Faults.{Checking};
ghost use Rattle.plan_faults.specs.Searches.{Latest, Risen};

// Goes on from frame `from` to the next that is not after all earlier ones of its card. Cards and plan are two slices, as src/lib.rt says; `from` is
// a place in them, and the clause has it (`Risen .. from result`).
//   latest[c]   no frame so far of card c has a cycle after this one
pub(crate) fn rising(cards: &[u8], plan: &[u16], from: usize, latest: &mut [u16]) -> usize
    requires { Checking cards.now plan.now × (from ≤ length cards.now) × Latest cards.now plan.now latest.old from }
    ensures { Risen cards.now plan.now latest.new from result }
{
    for i in from..cards.len() {
        let c = usize::from(cards[i]);
        let cycle = plan[i];
        if cycle <= latest[c] {
            return i;
        }
        latest[c] = cycle;
    }
    cards.len()
}
