// The pool rule over a whole plan by counting: which frames have room, and the peak of a read. Only frames that can decide are counted, but for
// the lowest overfull frame of a save.
// A plan stays a lent slice with its bound in the contracts: `pools` and `backlog` promise what they do of any slice, and a type around it would be
// opened again for each part that is counted.
ghost use Rattle.std.specs.Prelude.{◌≡◌, true, false, ◌≤◌, ◌<◌, ◌+◌, leb, min, length};
ghost use Rattle.header.specs.Limits.{max_frames};
ghost use Rattle.pool_counts.specs.Pools.{roomy_of, buffers_for, peak_among, peak_of};
ghost use Rattle.pool_counts.specs.Asking.{Needs};

use crate::{Room, backlog};

// A number after all cycles.
const PAST_ALL: usize = 65536;

// A read: how many frames have room, up to the first that has not, and the most buffers that one of them needs. A frame that is not ahead of all
// earlier ones needs no more than one of these, and is not asked about.
//   needed    the buffers that the frame at a position needs, given its cycle; any number above m where they are more than m
//   ceiling   one more than the largest cycle so far, 0 before the first frame: one comparison a frame, where an Option takes two
//   peak      the most buffers that one of the frames so far needs
pub fn roomy_read<F: Fn(usize, usize) -> u16>(plan: &[u16], m: u16, needed: F) -> Room
    requires { Needs m plan.now (F.pre needed) (F.post needed) }
    ensures roomy { result.roomy ≡ roomy_of false m plan.now }
    ensures peak { result.peak ≡ peak_among plan.now result.roomy }
{
    let mut ceiling: usize = 0;
    let mut peak: u16 = 0;
    for (i, cycle) in plan.iter().enumerate() {
        let c = usize::from(*cycle);
        if ceiling <= c {
            let buffers = needed(i, c);
            if m < buffers {
                return Room { roomy: i, peak };
            }
            ceiling = c + 1;
            peak = peak.max(buffers);
        }
    }
    Room {
        roomy: plan.len(),
        peak,
    }
}

// The buffers that frame i of a read needs, one for itself and one for each frame that counts, up to m + 1.
fn buffers(plan: &[u16], i: usize, m: u16) -> u16
    requires { (i < length plan.now) × (length plan.now ≤ max_frames) }
    ensures { result ≡ min (buffers_for plan.now i) (m + 1) }
{
    backlog::backlog(false, plan, i, m).count + 1
}

// A save: whether all frames have room. A frame that is not behind all later ones has no larger count than one of these, and is not counted.
//   floor   the smallest cycle of the later frames, past all behind the last: one comparison a frame, as above
fn all_roomy_save(plan: &[u16], m: u16) -> bool
    requires { length plan.now ≤ max_frames }
    ensures { result ≡ leb (length plan.now) (roomy_of true m plan.now) }
{
    let mut floor: usize = PAST_ALL;
    for i in (0..plan.len()).rev() {
        let c = usize::from(plan[i]);
        if c < floor {
            let found = backlog::backlog(true, plan, i, m);
            if m <= found.count {
                return false;
            }
            floor = c;
        }
    }
    true
}

// A save: how many frames have room, up to the first that has not. Each is counted, unless all have room.
fn roomy_save(plan: &[u16], m: u16) -> usize
    requires { length plan.now ≤ max_frames }
    ensures { result ≡ roomy_of true m plan.now }
{
    let n = plan.len();
    if all_roomy_save(plan, m) {
        return n;
    }
    (0..n)
        .find(|i| m <= backlog::backlog(true, plan, *i, m).count)
        .unwrap_or(n)
}

// The pools of a plan, and the peak where all frames have room.
pub fn pools(save: bool, plan: &[u16], m: u16) -> Room
    requires { length plan.now ≤ max_frames }
    ensures roomy { result.roomy ≡ roomy_of save m plan.now }
    ensures peak { result.roomy ≡ length plan.now → result.peak ≡ peak_of save plan.now }
{
    if save {
        return Room {
            roomy: roomy_save(plan, m),
            peak: 0,
        };
    }
    roomy_read(plan, m, |i, _| buffers(plan, i, m))
}
