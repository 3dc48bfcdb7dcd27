// Where the words of a file stand: two for the sides, then so many for each control point, and so many bytes. A net's
// record has constants of its own.
pub const POINT_WORDS: usize = 3;

pub const POINT_SIZE: usize = 4 * POINT_WORDS;

pub const HEAD_SIZE: usize = 8;
