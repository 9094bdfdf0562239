// The count in the pool rule: the frames that share the pool with frame i until its cycle. It ends when m of them are found.
ghost use Rattle.std.specs.Prelude.{◌≡◌, ◌≤◌, ◌<◌, min, leb, length};
ghost use Rattle.counting.specs.Count.{least};
ghost use Rattle.header.specs.Limits.{max_frames};
ghost use Rattle.pool_counts.specs.Backlog.{counts, count_first, count_up_to, looked_at};
ghost use Rattle.pool_counts.specs.Looking.{Looking, Rule, Says};

// How many frames count, up to m, and how many were looked at.
#[derive(Clone, Copy)]
pub struct Counted {
    pub count: u16,
    pub looked: u16,
}

// How many of the cycles count.
fn count_all<F: Fn(u16) -> bool>(others: &[u16], counts: &F) -> u16
    ghost rule: { Rule }
    requires { F.IsAlwaysCallable counts.now × Says (F.post counts.now) rule × (length others.now ≤ max_frames) }
    ensures { result ≡ count_first rule.save rule.own others.now (length others.now) }
{
    others.iter().map(|c| u16::from(counts(*c))).sum()
}

// Cycles are counted in parts, in which the compiler compares several at a time.
const PART: usize = 1024;

// Looks at whole parts, up to the one in which m are found.
fn whole_parts<F: Fn(u16) -> bool>(others: &[u16], m: u16, counts: &F) -> Counted
    ghost rule: { Rule }
    requires { F.IsAlwaysCallable counts.now × Says (F.post counts.now) rule × (length others.now ≤ max_frames) }
    ensures { Looking rule.save rule.own others.now m result.looked result.count }
{
    let mut count: u16 = 0;
    let mut looked: usize = 0;
    for part in others.chunks(PART) {
        let more = count_all(part, counts);
        if m <= count + more {
            break;
        }
        count += more;
        looked += part.len();
    }
    // The contract bounds the cast; `try_from` would answer a Result that is never an Err.
    Counted {
        count,
        looked: looked as u16,
    }
}

// Looks at the cycles in their order until m of them count: at whole parts first, then at one after the other.
fn count_up_to<F: Fn(u16) -> bool>(others: &[u16], m: u16, counts: &F) -> Counted
    ghost rule: { Rule }
    requires { F.IsAlwaysCallable counts.now × Says (F.post counts.now) rule × (length others.now ≤ max_frames) }
    ensures count { result.count ≡ min (count_first rule.save rule.own others.now (length others.now)) m }
    ensures looked { result.looked ≡ least (length others.now) (λ k. leb m (count_first rule.save rule.own others.now k)) }
{
    let parts = whole_parts(others, m, counts);
    let mut count = parts.count;
    for k in usize::from(parts.looked)..others.len() {
        if m <= count {
            return Counted {
                count,
                looked: k as u16,
            };
        }
        if counts(others[k]) {
            count += 1;
        }
    }
    Counted {
        count,
        looked: others.len() as u16,
    }
}

// The count of frame i: a save's rule has the frames before it, a read's those after it. `save` chooses the test here, once, and the loops above are
// built for each of the two.
pub fn backlog(save: bool, plan: &[u16], i: usize, m: u16) -> Counted
    requires { (i < length plan.now) × (length plan.now ≤ max_frames) }
    ensures count { result.count ≡ count_up_to save m plan.now i }
    ensures looked { result.looked ≡ looked_at save m plan.now i }
{
    let own = plan[i];
    if save {
        return count_up_to(&plan[..i], m, &|c| own <= c);
    }
    count_up_to(&plan[i + 1..], m, &|c| c <= own)
}
