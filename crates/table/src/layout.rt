// The sizes of a table: "Program table" of the paper.

pub const HEADER_LENGTH: usize = 16;

pub const NODE_LENGTH: usize = 8;

pub const MOST_VARIABLES: usize = 32;

pub const MOST_NODES: usize = 512;

pub const MOST_DEPTH: u8 = 24;
