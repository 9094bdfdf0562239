// Numbers of up to 8 bytes that may be no digits: where one of them is none, the number is NO_NUMBER or more.
ghost use Rattle.std.specs.Prelude.{◌≡◌, ◌+◌, ◌≤◌, length};
ghost use Rattle.text.specs.Text.{digit};
ghost use Rattle.text.specs.Wide.{wide, wide_values, wide_number};

use crate::read::Digits;

// Larger than every number of 8 digits.
// So one comparison tells for eight bytes, where an Option would be asked for at each.
pub const NO_NUMBER: u64 = 4294967296;

// A digit's value, and NO_NUMBER for what is none.
fn wide(v: u8) -> u64
    ensures { result ≡ wide v }
{
    if v < 16 { u64::from(v) } else { NO_NUMBER }
}

// These values of all bytes. A caller builds the table once and lends it for each number.
#[derive(Clone, Copy)]
pub struct WideDigits {
    value: [u64; 256],
    ghost of_each_byte: { value ≡ wide_values },
}

impl WideDigits {
    // Made of the table of digits, which lie from `0` to `f`.
    pub fn new(digits: &Digits) -> WideDigits {
        let mut value = [NO_NUMBER; 256];
        for b in b'0'..=b'f' {
            value[usize::from(b)] = wide(digits.digit(b));
        }
        WideDigits { value }
    }

    // A byte's value.
    fn digit(&self, b: u8) -> u64
        ensures { result ≡ wide (digit b) }
    {
        self.value[usize::from(b)]
    }

    // The number of the n bytes from a place on.
    pub fn number(&self, s: &[u8], at: usize, n: usize) -> u64
        requires { (n ≤ 8) × (at + n ≤ length s.now) }
        ensures { result ≡ wide_number s.now at n }
    {
        let mut sum: u64 = 0;
        for b in &s[at..at + n] {
            sum = sum * 16 + self.digit(*b);
        }
        sum
    }
}
