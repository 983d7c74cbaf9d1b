// The planner's version, said once for the programs and the library.
#![tactic(auto)]

pub const MAJOR: u32 = 0;

pub const MINOR: u32 = 8;

pub const PATCH: u32 = 0;

// One number that grows from version to version: 0.8.0 is 8,000.
pub const NUMBER: u32 = (MAJOR * 1000 + MINOR) * 1000 + PATCH;
