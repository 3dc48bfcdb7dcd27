// Nets of control triangles: sizes, vertices, storage and ranges.
#![tactic(auto)]

mod records;
mod refusals;
mod sizes;
mod storage;
mod vertices;

// Why a call refuses, in every crate.
pub use refusals::Refusal;

// The calls of document 01: no preconditions.
pub use vertices::{vertex, vertex_refusal};

// For the crates above: no preconditions.
pub use records::{POINT_STRIDE, STRIDE};
pub use sizes::{Size, bad_side, bad_size, short_net, too_short_for};

// For the crates above: callers establish the preconditions.
pub use storage::{
    any_beyond, any_outside, controls_beyond, load, load_point, net_beyond, number_beyond,
    store_point, vertex_beyond,
};
