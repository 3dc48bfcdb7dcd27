// Details added to one refinement of the coarse net, row by row: the sums at one vertex, the test of their range, and
// their storage. A refined row stands in a row by itself, since nothing may be stored before the test of all. It is
// filled with 1 at first: for 0 the compiler would call the C library, which the static library does without.
// `merging.rt` establishes the preconditions by its refusals.
ghost use Rattle.std.specs.Prelude.{◌≡◌, ◌||◌, ◌*◌, ◌≤◌, ◌<◌, nat_abs, ◌+ℤ◌, length, take};
ghost use Rattle.std.proofs.lemmas.List.Edits.{sets};
ghost use Rattle.exact.specs.Filling.{over};
ghost use Rattle.net.specs.Net.{vertex_at, stride, numbers};
ghost use Rattle.net.specs.Refusals.{net_limit, any_outside, any_beyond, PointWithin, ControlsWithin};
ghost use Rattle.subdivision.specs.Refinement.{refined_side};
ghost use Rattle.steps.specs.RefinedNet.{triangle_of, row_run};
ghost use Rattle.details.specs.Details.{detail_numbers};
ghost use Rattle.details.specs.Refusals.{detail_limit};
ghost use Rattle.merge.specs.Merge.{sum_point, sums, row_sums, merged_fields, merged_net};
ghost use Rattle.merge.specs.Refusals.{merged_beyond, Mergeable, RowMergeable};

use details::{DETAIL_STRIDE, load_details};
use net::{STRIDE, any_outside, controls_beyond, load};
use steps::{ROW_SIZE, refine_row, store_triangle};

// Of a number in the net range and a detail in its range the sum fits.
fn sum(a: i32, b: i32) -> i32
    requires { (nat_abs a ≤ net_limit) × (nat_abs b ≤ detail_limit) }
    ensures { result ≡ a +ℤ b }
{
    a + b
}

// The sums of one control point.
fn sum_point(a: [i32; 3], b: [i32; 3]) -> [i32; 3]
    requires { PointWithin net_limit a × PointWithin detail_limit b }
    ensures { result ≡ sum_point a b }
{
    let x = sum(a[0], b[0]);
    let y = sum(a[1], b[1]);
    let z = sum(a[2], b[2]);
    [x, y, z]
}

// The sums of a vertex: a control triangle and its details.
fn sums_of(a: [[i32; 3]; 3], b: [[i32; 3]; 3]) -> [[i32; 3]; 3]
    requires { ControlsWithin net_limit a × ControlsWithin detail_limit b }
    ensures { result ≡ sums a b }
{
    let c1 = sum_point(a[0], b[0]);
    let c2 = sum_point(a[1], b[1]);
    let c3 = sum_point(a[2], b[2]);
    [c1, c2, c3]
}

// The sums at vertex (i, j): the refined control triangle, vertex i of the row, and the details.
fn vertex_sums(
    row: &[i32],
    details: &[i32],
    w: usize,
    h: usize,
    i: usize,
    j: usize,
) -> [[i32; 3]; 3]
    requires { RowMergeable row.now details.now w h j × (i < w) }
    ensures { result ≡ triangle_of (row_sums row.now details.now w) (vertex_at i j) }
{
    let c = load(row, w, i, 0);
    let d = load_details(details, w, i, j);
    sums_of(c, d)
}

// Whether one of the sums of row j is outside the net range.
fn sums_beyond(row: &[i32], details: &[i32], w: usize, h: usize, j: usize) -> bool
    requires { RowMergeable row.now details.now w h j }
    ensures { result ≡ any_beyond (row_run (row_sums row.now details.now w) w j) }
{
    let mut bad = false;
    for i in 0..w {
        let c = vertex_sums(row, details, w, h, i, j);
        bad |= controls_beyond(c);
    }
    bad
}

// The sums of row j, stored in their row of `out`.
fn store_sums(row: &[i32], details: &[i32], w: usize, h: usize, j: usize, out: &mut [i32])
    requires { RowMergeable row.now details.now w h j × (numbers w h ≤ length out.old) }
    ensures { out.new
        ≡ sets out.old (stride * (j * w)) (row_run (row_sums row.now details.now w) w j) }
{
    let at = STRIDE * (j * w);
    for i in 0..w {
        let c = vertex_sums(row, details, w, h, i, j);
        store_triangle(c, at + STRIDE * i, out);
    }
}

// Whether a number of row j of the merged net is outside the net range; `row` is for the refined row.
fn merged_row_beyond(
    coarse: &[i32],
    details: &[i32],
    w: usize,
    h: usize,
    j: usize,
    row: &mut [i32],
) -> bool
    requires { Mergeable coarse.now details.now w h × (j < refined_side h)
        × (stride * refined_side w ≤ length row.old) }
    ensures { result
        ≡ any_beyond (row_run (merged_fields coarse.now details.now w) (refined_side w) j) }
{
    refine_row(coarse, w, h, j, 0, row);
    sums_beyond(row, details, 2 * w - 1, 2 * h - 1, j)
}

// Row j of the merged net, stored in its place in `out`; `row` is for the refined row.
fn store_merged_row(
    coarse: &[i32],
    details: &[i32],
    w: usize,
    h: usize,
    j: usize,
    row: &mut [i32],
    out: &mut [i32],
)
    requires { Mergeable coarse.now details.now w h × (j < refined_side h)
        × (stride * refined_side w ≤ length row.old)
        × (numbers (refined_side w) (refined_side h) ≤ length out.old) }
    ensures { out.new
        ≡ sets out.old (stride * (j * refined_side w))
        (row_run (merged_fields coarse.now details.now w) (refined_side w) j) }
{
    refine_row(coarse, w, h, j, 0, row);
    store_sums(row, details, 2 * w - 1, 2 * h - 1, j, out);
}

// Whether one of the numbers of the merged net is, by its rows. Nothing is written yet, so each row is worked out here
// and dropped. For `merged_beyond`.
fn rows_beyond(coarse: &[i32], details: &[i32], w: usize, h: usize) -> bool
    requires { Mergeable coarse.now details.now w h }
    ensures { result ≡ merged_beyond coarse.now details.now w h }
{
    let high = 2 * h - 1;
    let mut row = [1i32; ROW_SIZE];
    let mut bad = false;
    for j in 0..high {
        bad |= merged_row_beyond(coarse, details, w, h, j, &mut row);
    }
    bad
}

// Whether a coarse number or a detail is above half of the net's limit in size. Where none is, no sum leaves the net
// range, since a refined number lies where the coarse ones lie.
fn any_large(coarse: &[i32], details: &[i32], w: usize, h: usize) -> bool
    requires { Mergeable coarse.now details.now w h }
    ensures { result ≡ (any_outside 8388608 (take (numbers w h) coarse.now)
        || any_outside 8388608 (take (detail_numbers (refined_side w) (refined_side h)) details.now)) }
{
    let few = STRIDE * (w * h);
    if any_outside(&coarse[..few], 8388608) {
        return true;
    }
    let many = DETAIL_STRIDE * ((2 * w - 1) * (2 * h - 1));
    any_outside(&details[..many], 8388608)
}

// Whether a number of the merged net is outside the net range. For the refusals of merging, which have found 1, 4, 2
// and 3 before. The test of the numbers' sizes settles most nets, and takes less time than the rows.
pub fn merged_beyond(coarse: &[i32], details: &[i32], w: usize, h: usize) -> bool
    requires { Mergeable coarse.now details.now w h }
    ensures { result ≡ merged_beyond coarse.now details.now w h }
{
    if any_large(coarse, details, w, h) {
        rows_beyond(coarse, details, w, h)
    } else {
        false
    }
}

// The merged net over the front of `out`. For `merge`, which has refused everything else.
pub fn store_merged(coarse: &[i32], details: &[i32], w: usize, h: usize, out: &mut [i32])
    requires { Mergeable coarse.now details.now w h
        × (numbers (refined_side w) (refined_side h) ≤ length out.old) }
    ensures { out.new
        ≡ over (merged_net coarse.now details.now w h) out.old }
{
    let high = 2 * h - 1;
    let mut row = [1i32; ROW_SIZE];
    for j in 0..high {
        store_merged_row(coarse, details, w, h, j, &mut row, out);
    }
}
