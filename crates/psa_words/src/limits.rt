/// The greatest order limit.
pub const MAX_LIMIT_ORDER: u64 = 32;

/// The order limit where none is given.
pub const DEFAULT_LIMIT_ORDER: u8 = 20;

/// The mission time where none is given.
pub const DEFAULT_MISSION_TIME: u32 = 8760;

/// The greatest limit of nodes.
pub const MAX_NODE_LIMIT: u64 = 1_000_000_000_000;

/// The most digits of a whole number.
pub const MAX_DIGITS: usize = 13;
