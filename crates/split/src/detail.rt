// The details of a net against a coarse net, row by row: the differences at one vertex, and their storage. A refined
// row stands in a row by itself, since the records of details are apart from the net's; it is filled with 1 at first,
// since for 0 the compiler would call the C library. `splitting.rt` establishes the preconditions by its refusals.
ghost use Rattle.std.specs.Prelude.{◌≡◌, false, ◌*◌, ◌≤◌, ◌<◌, nat_abs, ◌-ℤ◌, length};
ghost use Rattle.std.proofs.lemmas.List.Edits.{sets};
ghost use Rattle.exact.specs.Filling.{over};
ghost use Rattle.net.specs.Net.{vertex_at, field, stride, grid_row};
ghost use Rattle.net.specs.Refusals.{net_limit, PointWithin, ControlsWithin, AcceptedNet};
ghost use Rattle.details.specs.Details.{detail_stride, detail_numbers, detail_controls, detail_run};
ghost use Rattle.details.specs.Refusals.{even_size};
ghost use Rattle.coarse.specs.Coarse.{coarse_side};
ghost use Rattle.split.specs.Split.{detail_of, details_against, difference_point, differences, row_differences, RowSplittable};

use details::{DETAIL_STRIDE, store_details};
use net::load;
use steps::{ROW_SIZE, refine_row};

// Of numbers in the net range the difference fits.
fn difference(a: i32, b: i32) -> i32
    requires { (nat_abs a ≤ net_limit) × (nat_abs b ≤ net_limit) }
    ensures { result ≡ a -ℤ b }
{
    a - b
}

// The details of one control point.
fn difference_point(a: [i32; 3], b: [i32; 3]) -> [i32; 3]
    requires { PointWithin net_limit a × PointWithin net_limit b }
    ensures { result ≡ difference_point a b }
{
    let x = difference(a[0], b[0]);
    let y = difference(a[1], b[1]);
    let z = difference(a[2], b[2]);
    [x, y, z]
}

// The details of a vertex: its control triangle less the refined one.
fn differences_of(a: [[i32; 3]; 3], b: [[i32; 3]; 3]) -> [[i32; 3]; 3]
    requires { ControlsWithin net_limit a × ControlsWithin net_limit b }
    ensures { result ≡ differences a b }
{
    let d1 = difference_point(a[0], b[0]);
    let d2 = difference_point(a[1], b[1]);
    let d3 = difference_point(a[2], b[2]);
    [d1, d2, d3]
}

// The details of vertex (i, j): its control triangle less the refined one, vertex i of the row.
fn vertex_differences(
    net: &[i32],
    row: &[i32],
    w: usize,
    h: usize,
    i: usize,
    j: usize,
) -> [[i32; 3]; 3]
    requires { RowSplittable net.now row.now w h j × (i < w) }
    ensures { result ≡ detail_controls (row_differences net.now row.now w) (vertex_at i j) }
{
    let c = load(net, w, i, j);
    let r = load(row, w, i, 0);
    differences_of(c, r)
}

// The details of row j, stored in their row of `details`.
fn store_row_details(net: &[i32], row: &[i32], w: usize, h: usize, j: usize, details: &mut [i32])
    requires { RowSplittable net.now row.now w h j × (detail_numbers w h ≤ length details.old) }
    ensures { details.new
        ≡ sets details.old (detail_stride * (j * w))
        (grid_row (detail_run (row_differences net.now row.now w)) w j) }
{
    let at = DETAIL_STRIDE * (j * w);
    for i in 0..w {
        let d = vertex_differences(net, row, w, h, i, j);
        store_details(d, at + DETAIL_STRIDE * i, details);
    }
}

// The details of row j against one refinement of the coarse net; `row` is for the refined row.
fn store_difference_row(
    net: &[i32],
    w: usize,
    h: usize,
    coarse: &[i32],
    j: usize,
    row: &mut [i32],
    details: &mut [i32],
)
    requires { AcceptedNet net.now w h × (even_size w h ≡ false)
        × AcceptedNet coarse.now (coarse_side w) (coarse_side h) × (j < h) × (stride * w ≤ length row.old)
        × (detail_numbers w h ≤ length details.old) }
    ensures { details.new
        ≡ sets details.old (detail_stride * (j * w))
        (grid_row (detail_run (λ x. detail_of (field net.now w x) (field coarse.now (coarse_side w) x)))
        w j) }
{
    refine_row(coarse, (w + 1) / 2, (h + 1) / 2, j, 0, row);
    store_row_details(net, row, w, h, j, details);
}

// The details of the net against one refinement of the coarse net over the front of `details`. For `split_with`, which
// has refused every other net and shorter outputs, and has stored the coarse net.
pub fn store_differences(net: &[i32], w: usize, h: usize, coarse: &[i32], details: &mut [i32])
    requires { AcceptedNet net.now w h × (even_size w h ≡ false)
        × AcceptedNet coarse.now (coarse_side w) (coarse_side h) × (detail_numbers w h ≤ length details.old) }
    ensures { details.new
        ≡ over (details_against net.now coarse.now w h) details.old }
{
    let mut row = [1i32; ROW_SIZE];
    for j in 0..h {
        store_difference_row(net, w, h, coarse, j, &mut row, details);
    }
}
