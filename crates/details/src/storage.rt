// The details of a vertex in lent memory: loading and storing them by value.
ghost use Rattle.std.specs.Prelude.{◌≡◌, ◌+◌, ◌*◌, ◌≤◌, length};
ghost use Rattle.net.specs.Net.{vertex_at};
ghost use Rattle.details.specs.Details.{detail_stride, detail_start, detail_triangle, detail_points};

use crate::records::{DETAIL_POINT_STRIDE, DETAIL_STRIDE};
use net::{load_point, store_point};

// The details of vertex (i, j). For the crates above, which have refused details that are too short.
pub fn load_details(details: &[i32], w: usize, i: usize, j: usize) -> [[i32; 3]; 3]
    requires { detail_start w (vertex_at i j) + detail_stride ≤ length details.now }
    ensures { result ≡ detail_triangle details.now w (vertex_at i j) }
{
    let at = DETAIL_STRIDE * (j * w + i);
    let d1 = load_point(details, at);
    let d2 = load_point(details, at + DETAIL_POINT_STRIDE);
    let d3 = load_point(details, at + 2 * DETAIL_POINT_STRIDE);
    [d1, d2, d3]
}

// The details of a vertex, stored from a place on. For splitting, which has refused outputs that are too short.
pub fn store_details(d: [[i32; 3]; 3], at: usize, details: &mut [i32])
    requires { at + detail_stride ≤ length details.old }
    ensures { details.new ≡ detail_points details.old at d }
{
    store_point(d[0], at, details);
    store_point(d[1], at + DETAIL_POINT_STRIDE, details);
    store_point(d[2], at + 2 * DETAIL_POINT_STRIDE, details);
}
