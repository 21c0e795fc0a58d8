//! The limits of a folder, each told once; this project's own choices.

/// Recorded commands: a tick is a number in 32 bits.
pub const MAX_TICKS: u32 = 4_294_967_295;

/// Streams at a time.
pub const MAX_STREAMS: usize = 1_024;

/// Extents of one stream.
pub const MAX_EXTENTS: usize = 65_535;

/// Extents of all streams.
pub const MAX_ALL_EXTENTS: usize = 262_144;

/// Bytes of an extent's file.
pub const MAX_EXTENT_BYTES: u64 = 16_777_216;

/// Rows of an extent, and of any list that is counted in 32 bits.
pub const MAX_ROWS: u64 = 4_294_967_295;

/// Kept results at a time.
pub const MAX_ENTRIES: usize = 4_096;

/// Bytes of a kept result's file.
pub const MAX_RESULT_BYTES: u64 = 67_108_864;

/// Bytes of the spelling of a kept result's plan.
pub const MAX_PLAN_BYTES: usize = 65_536;

/// The machine time of one work: the rows that its plan takes in, and 1 for the plan itself.
pub const MAX_MACHINE_TIME: u64 = 4_294_967_295;

/// The first number that no extent and no kept result may have as its file's: those of the logs begin there.
pub const FILE_END: u64 = 4_294_967_296;
