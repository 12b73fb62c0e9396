// The bounds of a sheet of rules.

pub const MOST_RULES: usize = 16;

pub const MOST_ROWS: usize = 64;

// So many rows that bind a variable may enclose one another.
pub const DEEPEST: usize = 8;
