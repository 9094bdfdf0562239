// The limits of a ticket. The definitions that the contracts use are in specs/Limits.antt, with the reason of each.

// The modes are numbers, as `header_of` (specs/Heading.antt) gives every text a header, also with a mode over 02.
pub const MODE_READ: u8 = 0;

pub const MODE_SAVE: u8 = 1;

pub const MODE_SAVE_AND_KEEP: u8 = 2;

pub const MAX_CARDS: u8 = 32;

pub const MAX_POOL: u16 = 192;

pub const MAX_FRAMES: u16 = 4096;

// The limits as lengths of tables: a place for each card, for each frame, and for each frame that can wait in a pool.
// By `as`: `usize::from` is not for constants.
pub const CARDS: usize = MAX_CARDS as usize;

pub const FRAMES: usize = MAX_FRAMES as usize;

pub const POOL: usize = MAX_POOL as usize;
