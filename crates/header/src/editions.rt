// The editions of a ticket, and how wide a frame line of each is. The definitions that the contracts use are in specs/Editions.antt.
ghost use Rattle.std.specs.Prelude.{◌≡◌};
ghost use Rattle.header.specs.Heading.{low_edition};
ghost use Rattle.header.specs.Editions.{known, line_digits};

// The editions are numbers, as `header_of` gives every text one, also one that is not read.
pub const EDITION_1: u8 = 1;

pub const EDITION_2: u8 = 2;

// A line begins with the digits of its card; in edition 02 those of the capture second follow.
pub const CARD_DIGITS: usize = 2;

pub const SECOND_DIGITS: usize = 8;

// Whether an edition is one of those that are read.
pub fn known(edition: u8) -> bool
    ensures { result ≡ known edition }
{
    if edition == EDITION_1 {
        return true;
    }
    edition == EDITION_2
}

// The digits of a line.
pub fn line_digits(edition: u8) -> usize
    ensures { result ≡ line_digits edition }
{
    if edition == EDITION_2 {
        return CARD_DIGITS + SECOND_DIGITS;
    }
    CARD_DIGITS
}

// The edition at the front of a text where it is below 10, as those that are read are: written as 0 and a digit up to 9. 0 for any other text.
pub fn low_edition(t: &[u8]) -> u8
    ensures { result ≡ low_edition t.now }
{
    if t.len() < 2 {
        return 0;
    }
    if t[0] != b'0' {
        return 0;
    }
    let low = t[1];
    if low < b'0' {
        return 0;
    }
    if b'9' < low {
        return 0;
    }
    low - b'0'
}
