// The grid of a worksheet, and the largest size of a row or a column: document 01, sections "Titles" and "Questions in order".

pub const MAX_WORKSHEET_ROW: u32 = 1_048_575;

pub const MAX_WORKSHEET_COLUMN: u16 = 16_383;

pub const LARGEST_SIZE: u64 = 1_073_741_823;
