// The sizes of one session. Each number stands here once, under the name that it has in the rules' definitions; the other crates refer to it.
#![tactic(auto)]

// At most so many of each.
pub const MAX_NODES: usize = 8;

pub const MAX_SHEETS: usize = 64;

pub const MAX_SAVES: usize = 32;

// Bytes of a session, at most.
pub const MAX_SESSION: usize = 16384;

// Commands of a session, at most: each has two bytes or more.
pub const MAX_COMMANDS: usize = MAX_SESSION / 2;

// Bytes of a report buffer, at least.
pub const MIN_BUFFER: usize = 4096;

// Bytes of a state's text, at most: no text has more, which is proved where it is written.
pub const MAX_STATE: usize = 524288;
