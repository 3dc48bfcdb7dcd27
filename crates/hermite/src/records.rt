// The records of given points: so many numbers p, t1 and t2 have each, x, y and z, and so many a vertex. They are apart
// from the net's, whose records may grow.
pub const VECTOR_STRIDE: usize = 3;

pub const GIVEN_STRIDE: usize = 3 * VECTOR_STRIDE;
