// All lists of up to 8 small numbers, by a number: its digits in some base, the lowest one first, are the list.
ghost use Rattle.std.specs.Prelude.{◌≤◌, ◌<◌};

use crate::tickets::FRAMES;

// How many lists of n numbers below a base there are.
pub(crate) fn how_many(n: usize, base: u64) -> u64
    requires { n ≤ 8 }
{
    // It fits: `try_from` would be a Result that is never an Err.
    base.wrapping_pow(n as u32)
}

// The list of this number among those of 8 numbers below a base.
pub(crate) fn numbered(number: u64, base: u64) -> [u8; FRAMES]
    requires { (0 < base) × (base ≤ 256) }
{
    let mut list = [0; FRAMES];
    let mut rest = number;
    for digit in &mut list {
        // It fits: `try_from` would be a Result that is never an Err.
        *digit = (rest % base) as u8;
        rest /= base;
    }
    list
}
