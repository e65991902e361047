//! The limits within which a store is planned and run.

/// The most dies of a store.
pub const MAX_DIES: u32 = 8;

/// The fewest blocks of a die.
pub const MIN_BLOCKS: u32 = 2;

/// The most blocks of a die.
pub const MAX_BLOCKS: u32 = 1_024;

/// The fewest pages of a block.
pub const MIN_PAGES: u32 = 2;

/// The most pages of a block.
pub const MAX_PAGES: u32 = 256;

/// The most slots that the erase of a block takes; it takes at least one.
pub const MAX_ERASE_SLOTS: u32 = 64;

/// The most writing tasks of a die; it has at least one.
pub const MAX_TASKS: u32 = 16;

/// The most operations of a job; it has at least one.
pub const MAX_OPS: u32 = 64;

/// The most jobs and collections that a die accepts.
pub const MAX_JOBS: u32 = 65_536;

/// The last present slot that a die reaches, and the last deadline that it accepts.
pub const MAX_SLOT: u32 = 1_048_576;

/// The most passes that are made for a die.
pub const MAX_PASSES: u32 = 65_536;

/// The most workers of a run.
pub const MAX_WORKERS: u32 = 16;

/// The bytes of a page.
pub const PAGE_BYTES: usize = 16;
