// The eight fixed patterns of the hub, and those that the cameras use, each as one word of 64 bits.
ghost use Rattle.std.specs.Prelude.{◌≡◌, ◌<◌};
ghost use Rattle.hub.specs.Grounds.{Known};
ghost use Rattle.hub.specs.Patterns.{hub_size, pattern_row, pattern_card};
ghost use Rattle.hub.specs.Words.{word_at, Words};

// Cards of the hub; also how many places a pattern has, and how many patterns there are.
pub const SIZE: usize = 8;

// The most cameras.
pub const CAMERAS: usize = 6;

// Place k of pattern p has the card PATTERNS[p][k].
const PATTERNS: [[u8; SIZE]; SIZE] = [
    [0, 1, 2, 3, 4, 5, 6, 7],
    [0, 3, 6, 1, 4, 7, 2, 5],
    [0, 5, 2, 7, 4, 1, 6, 3],
    [0, 7, 6, 5, 4, 3, 2, 1],
    [4, 5, 6, 7, 0, 1, 2, 3],
    [4, 7, 2, 5, 0, 3, 6, 1],
    [4, 1, 6, 3, 0, 5, 2, 7],
    [4, 3, 2, 1, 0, 7, 6, 5],
];

// The cards at the places of a pattern.
fn row(pattern: usize) -> [u8; SIZE]
    requires { pattern < hub_size }
    ensures { result ≡ pattern_row pattern }
{
    PATTERNS[pattern]
}

// A pattern as a word: a byte for each place, place 0 lowest.
fn word(pattern: usize) -> u64
    requires { pattern < hub_size }
    ensures { result ≡ word_at (pattern_card pattern) 0 }
{
    u64::from_le_bytes(row(pattern))
}

// The pattern of each camera; places past the cameras are 0.
pub(crate) fn words_of(chosen: &[u8]) -> [u64; CAMERAS]
    requires { Known chosen.now }
    ensures { Words chosen.now result }
{
    let mut words = [0u64; CAMERAS];
    for (q, pattern) in chosen.iter().enumerate() {
        words[q] = word(usize::from(*pattern));
    }
    words
}
