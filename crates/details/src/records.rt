// The records of lent details: so many numbers a control point has, x, y and z, and so many a vertex. They are apart
// from the net's, whose records may grow.
pub const DETAIL_POINT_STRIDE: usize = 3;

pub const DETAIL_STRIDE: usize = 3 * DETAIL_POINT_STRIDE;
