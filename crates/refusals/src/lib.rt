// The grounds on which a ticket or a call is turned down, each with its number.
#![tactic(auto)]

ghost use Rattle.std.specs.Prelude.{◌≡◌};
ghost use Rattle.refusals.specs.Numbers.{number_of};

use std::error::Error;
use std::fmt;

/// Why a ticket or a call is turned down.
#[derive(Clone, Copy, Debug, PartialEq, Eq, Hash)]
pub enum Refusal {
    // the first 15 bytes are not 14 digits and an end byte
    NoHeader = 1,
    UnknownEdition = 2,
    UnknownMode = 3,
    // cards not 1 to 32
    CardCount = 4,
    // pool not 1 to 192
    PoolSize = 5,
    // frames over 4,096
    TooManyFrames = 6,
    // a frame line is missing, or is not the digits of its edition and an end byte
    NoLine = 7,
    // a card number is not below the number of cards
    NoSuchCard = 8,
    BytesFollow = 9,
    // lent memory has too few places
    NoRoom = 10,
    // a plan that has not exactly as many cycles as the ticket has frames
    PlanLength = 11,
    // the checker is given save and keep
    KeepNotChecked = 12,
    SaverFull = 13,
    NothingWaiting = 14,
    ClosingBegun = 15,
    // a position that is not below the number of frames
    NoSuchPosition = 16,
    // a second is lower than that of the line before
    SecondFalls = 17,
    // two tickets that cannot be joined
    Unlike = 18,
    JoinedTooLong = 19,
    // not 1 to 6 cameras, or a pattern that is not 0 to 7
    HubSetUp = 20,
    NoSuchCamera = 21,
}

impl From<Refusal> for u8 {
    ghost from_gives = { λ refusal number. number ≡ number_of refusal };

    fn from(refusal: Refusal) -> u8 {
        // by `as`: an enum has no From for its number
        refusal as u8
    }
}

impl fmt::Display for Refusal {
    fn fmt<W: fmt::Write>(&self, f: &mut fmt::Formatter<W>) -> fmt::Result {
        write!(f, "refused by {}", u8::from(*self))
    }
}

impl Error for Refusal {}
