// Lines and numbers, read with a table of the digits' values.
ghost use Rattle.std.specs.Prelude.{◌≡◌, true, ◌+◌, ◌^◌, ◌≤◌, ◌<◌, length};
ghost use Rattle.text.specs.Text.{digit, digit_values, digits, number, is_line};

// For each byte its value as a digit, in either case, and 255 where it is no digit. A caller builds the table once and lends it for each digit.
#[derive(Clone, Copy)]
pub struct Digits {
    value: [u8; 256],
    ghost of_each_byte: { value ≡ digit_values },
}

impl Digits {
    pub fn new() -> Digits {
        // No loop: it is a table, and each line one entry of it.
        let mut value = [255u8; 256];
        value[48] = 0;
        value[49] = 1;
        value[50] = 2;
        value[51] = 3;
        value[52] = 4;
        value[53] = 5;
        value[54] = 6;
        value[55] = 7;
        value[56] = 8;
        value[57] = 9;
        value[65] = 10;
        value[66] = 11;
        value[67] = 12;
        value[68] = 13;
        value[69] = 14;
        value[70] = 15;
        value[97] = 10;
        value[98] = 11;
        value[99] = 12;
        value[100] = 13;
        value[101] = 14;
        value[102] = 15;
        Digits { value }
    }

    // A byte's value as a digit.
    pub fn digit(&self, b: u8) -> u8
        ensures { result ≡ digit b }
    {
        self.value[usize::from(b)]
    }

    // Whether a line of n digits stands at a place, whatever the place and n.
    pub fn is_line(&self, s: &[u8], at: usize, n: usize) -> bool
        ensures { result ≡ is_line s.now at n }
    {
        let long = s.len();
        if long <= n {
            return false;
        }
        if long - n <= at {
            return false;
        }
        for b in &s[at..at + n] {
            if 16 <= self.digit(*b) {
                return false;
            }
        }
        s[at + n] == crate::END
    }

    // The value of the n digits from a place on, 8 at most.
    // One function with that of wide.rt is no plainer: the table, the width of the sum and both clauses differ.
    pub fn number(&self, s: &[u8], at: usize, n: usize) -> u32
        requires { (n ≤ 8) × (at + n ≤ length s.now) × (digits s.now at n ≡ true) }
        ensures { (result ≡ number s.now at n) × (result < 16 ^ n) }
    {
        let mut sum: u32 = 0;
        for b in &s[at..at + n] {
            sum = sum * 16 + u32::from(self.digit(*b));
        }
        sum
    }
}
