/// The greatest number of files of a model.
pub const MAX_FILES: usize = 16;

/// The greatest number of instructions carried out on one path.
pub const MAX_INSTRUCTIONS: u32 = 256;

/// The greatest number of paths of a model.
pub const MAX_PATHS: u32 = 65_536;

/// Levels enough for the expression of each event: an expression of its own, a group's quantity around
/// it, and a parameter of the greatest depth.
pub const MAX_VALUE_LEVELS: u32 = 1_000;

/// The greatest nesting of a definition's body, as of the elements of a file.
pub const MAX_NESTING: u32 = 64;

/// The least number of members of a common cause group.
pub const MIN_MEMBERS: usize = 2;

/// The greatest number of members of a common cause group.
pub const MAX_MEMBERS: usize = 8;

/// The greatest number of definitions, group members and collected formulas of a model together.
pub const MAX_SIZE: usize = 16_000_000;

/// The greatest number of ranked events of a target.
pub const MAX_EVENTS: usize = 2_048;

/// The least size of the sample model.
pub const MIN_SAMPLE: u64 = 2;

/// The greatest size of the sample model.
pub const MAX_SAMPLE: u64 = 1000;
