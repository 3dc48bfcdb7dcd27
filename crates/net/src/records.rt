// The records of a lent net: so many numbers a control point has, x, y and z, and so many a vertex, for c1, c2 and c3.
pub const POINT_STRIDE: usize = 3;

pub const STRIDE: usize = 3 * POINT_STRIDE;
