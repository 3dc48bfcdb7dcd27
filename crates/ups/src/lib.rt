// The static library: the calls of document 01 and of document 02, a and c, and the two points of a seam, for C and
// Rust, which include/ups.h and rust/src/raw.rs declare. A slice is a pointer and then a length; 0 is accepted, another
// number refuses. As in Rust, a slice that is lent to be written overlaps no other. Of mirror images (document 02, d)
// speaks `crates/mirror/specs/Promises.antt`, by the definitions that these contracts cite.
#![tactic(auto)]

ghost use Rattle.std.specs.Prelude.{◌≡◌, ltb, length, take};
ghost use Rattle.exact.specs.Filling.{UnchangedFrom};
ghost use Rattle.net.specs.Refusals.{output_after, vertex_refusal};
ghost use Rattle.net.specs.Results.{refused};
ghost use Rattle.bezier.specs.BezierNet.{bezier_numbers};
ghost use Rattle.surface.specs.SurfacePoint.{surface_point};
ghost use Rattle.surface.specs.Answers.{view_point};
ghost use Rattle.steps.specs.RefinedNet.{refined_net};
ghost use Rattle.refine.specs.Answers.{refusal_of, free_scratch};
ghost use Rattle.refined_points.specs.Answers.{refined_surface_point};
ghost use Rattle.refined_points.specs.DemandThree.{Claimed};
ghost use Rattle.seam.specs.Answers.{seam_points, SeamHolds};
ghost use Rattle.seam.specs.Contract.{SeamLeft};
ghost use Rattle.words.specs.NetFile.{net_file, file_numbers};
ghost use Rattle.details.specs.Refusals.{clean_refusal};
ghost use Rattle.details.specs.Cleaning.{cleaned_details};
ghost use Rattle.split.specs.Answers.{split_refusal_of, split_coarse, split_details};
ghost use Rattle.merge.specs.Merge.{merged_net};
ghost use Rattle.merge.specs.Answers.{merge_refusal_of};
ghost use Rattle.hermite.specs.HermiteNet.{hermite_net};
ghost use Rattle.hermite.specs.Answers.{given_refusal_of};
ghost use Rattle.outline.specs.Refusals.{check_faults, check_refusal, free_search};
ghost use Rattle.outlined_points.specs.Refusals.{triangle_by, outlined_bezier_refusal};
ghost use Rattle.outlined_refine.specs.Answers.{faults_of, outlined_refusal_of, OutlinedLeft};
ghost use Rattle.outlined_refined_points.specs.Answers.{point_faults_of};
ghost use Rattle.ups.specs.Exports.{exported_triangle, bezier_export, point_export, refined_point_export, seam_export, write_export, written_count, read_export, read_size, outlined_point_export, outlined_refined_export};

use bezier::bezier_net;
use details::clean;
use hermite::from_points;
use merge::merge;
use net::{Refusal, bad_size, store_point, vertex_refusal};
use outline::check_outline;
use outlined_points::{bezier_net_outlined, surface_point_outlined_with, view_point_outlined_with};
use outlined_refine::refine_outlined;
use outlined_refined_points::refined_point_outlined_with;
use reader::read_with;
use refine::refine;
use refined_points::refined_point_with;
use seam::{seam_points_with, store_points};
use split::split;
use surface::{surface_point_with, view_point_with};
use writer::write_with;

// What C takes for a result: the number of its refusal, or 0.
fn number_of(answer: Result<(), Refusal>) -> u32
    ensures { result ≡ refused answer }
{
    match answer {
        Ok(()) => 0,
        Err(refusal) => refusal.number(),
    }
}

// 1, 6, 2, or 0: the companion of the vertex part.
#[unsafe(no_mangle)]
pub extern "C" fn ups_vertex_refusal(net: &[i32], w: usize, h: usize, i: usize, j: usize) -> u32
    ensures { result ≡ vertex_refusal net.now w h i j }
{
    number_of(vertex_refusal(net, w, h, i, j))
}

// The 57 numbers of a Bézier net into `out`. `down` is 0 or 1.
#[unsafe(no_mangle)]
pub extern "C" fn ups_bezier_net(
    net: &[i32],
    w: usize,
    h: usize,
    i: usize,
    j: usize,
    down: u32,
    out: &mut [i32],
) -> u32
    ensures value { result ≡ bezier_export net.now w h i j down (length out.old) }
    ensures out_after { out.new
        ≡ output_after result (bezier_numbers net.now w (exported_triangle i j down)) out.old }
{
    if 1 < down {
        if bad_size(w, h) {
            return Refusal::Size.number();
        }
        return Refusal::Place.number();
    }
    number_of(bezier_net(net, w, h, i, j, down == 1, out))
}

// The surface point's x, y, z into `out`.
#[unsafe(no_mangle)]
pub extern "C" fn ups_surface_point(
    net: &[i32],
    w: usize,
    h: usize,
    p: usize,
    q: usize,
    out: &mut [i32],
) -> u32
    ensures value { result ≡ point_export net.now w h p q (length out.old) }
    ensures out_after { out.new ≡ output_after result (surface_point net.now w h p q) out.old }
{
    match surface_point_with(net, w, h, p, q, out.len() < 3) {
        Ok(point) => {
            store_point([point.x, point.y, point.z], 0, out);
            0
        }
        Err(refusal) => refusal.number(),
    }
}

// The viewer's point's x, y, z, in millimetres, into `out`.
#[unsafe(no_mangle)]
pub extern "C" fn ups_view_point(
    net: &[i32],
    w: usize,
    h: usize,
    p: usize,
    q: usize,
    out: &mut [f64],
) -> u32
    ensures value { result ≡ point_export net.now w h p q (length out.old) }
    ensures out_after { out.new ≡ output_after result (view_point net.now w h p q) out.old }
{
    match view_point_with(net, w, h, p, q, out.len() < 3) {
        Ok(point) => {
            store_point([point.x, point.y, point.z], 0, out);
            0
        }
        Err(refusal) => refusal.number(),
    }
}

// The net's file into `out`, and the count of its bytes into `written`.
#[unsafe(no_mangle)]
pub extern "C" fn ups_write(
    net: &[i32],
    w: usize,
    h: usize,
    out: &mut [u8],
    written: &mut [u64],
) -> u32
    ensures value { result ≡ write_export net.now w h (length out.old)
        (length written.old) }
    ensures out_after { out.new ≡ output_after result (net_file net.now w h) out.old }
    ensures written_after { written.new ≡ output_after result (written_count w h) written.old }
{
    match write_with(net, w, h, written.len() < 1, out) {
        Ok(n) => {
            written[0] = n as u64;
            0
        }
        Err(refusal) => refusal.number(),
    }
}

// The numbers of a file into `net`, and its width and height into `size`.
#[unsafe(no_mangle)]
pub extern "C" fn ups_read(file: &[u8], net: &mut [i32], size: &mut [u64]) -> u32
    ensures value { result ≡ read_export file.now (length net.old) (length size.old) }
    ensures net_after { net.new ≡ output_after result (file_numbers file.now) net.old }
    ensures size_after { size.new ≡ output_after result (read_size file.now) size.old }
{
    match read_with(file, size.len() < 2, net) {
        Ok((w, h)) => {
            size[0] = w as u64;
            size[1] = h as u64;
            0
        }
        Err(refusal) => refusal.number(),
    }
}

// The net refined by k steps into `out`; the first numbers of `scratch` are free afterwards when k is 2 or more.
#[unsafe(no_mangle)]
pub extern "C" fn ups_refine(
    net: &[i32],
    w: usize,
    h: usize,
    k: usize,
    out: &mut [i32],
    scratch: &mut [i32],
) -> u32
    ensures value { result ≡ refusal_of net.now w h k out.old scratch.old }
    ensures out_after { out.new ≡ output_after result (refined_net net.now w h k) out.old }
    ensures unchanged_from { UnchangedFrom (free_scratch result k w h) scratch.old scratch.new }
{
    number_of(refine(net, w, h, k, out, scratch))
}

// The same, and the surface point at place (p, q) of the refined net into `point`. Its last promise is demand 3.
#[unsafe(no_mangle)]
pub extern "C" fn ups_refined_point(
    net: &[i32],
    w: usize,
    h: usize,
    k: usize,
    p: usize,
    q: usize,
    out: &mut [i32],
    scratch: &mut [i32],
    point: &mut [i32],
) -> u32
    ensures value { result ≡ refined_point_export net.now w h k p q out.old scratch.old
        point.old }
    ensures out_after { out.new ≡ output_after result (refined_net net.now w h k) out.old }
    ensures unchanged_from { UnchangedFrom (free_scratch result k w h) scratch.old scratch.new }
    ensures point_after { point.new
        ≡ output_after result (refined_surface_point net.now w h k p q) point.old }
    ensures claimed { result ≡ 0 → Claimed net.now w h k p q (result, take 3 point.new) }
{
    match refined_point_with(net, w, h, k, p, q, point.len() < 3, out, scratch) {
        Ok(at) => {
            store_point([at.x, at.y, at.z], 0, point);
            0
        }
        Err(refusal) => refusal.number(),
    }
}

// The net refined by k steps into `out` and by l steps into `out2`, and into `points` the surface point of the first at
// place (p, q) and that of the second at place (p2, q2), which are the same place of the net. Its last promise is the
// seam's.
#[unsafe(no_mangle)]
pub extern "C" fn ups_seam_points(
    net: &[i32],
    w: usize,
    h: usize,
    k: usize,
    l: usize,
    p: usize,
    q: usize,
    p2: usize,
    q2: usize,
    out: &mut [i32],
    scratch: &mut [i32],
    out2: &mut [i32],
    scratch2: &mut [i32],
    points: &mut [i32],
) -> u32
    ensures value { result ≡ seam_export net.now w h k l p q p2 q2 out.old scratch.old
        out2.old scratch2.old points.old }
    ensures seam_left { SeamLeft result net.now w h k l out.old scratch.old
        out2.old scratch2.old out.new scratch.new out2.new
        scratch2.new }
    ensures points_after { points.new
        ≡ output_after result (seam_points net.now w h k l p q p2 q2) points.old }
    ensures seam_holds { result ≡ 0 → SeamHolds net.now w h k l p q p2 q2 result points.new }
{
    match seam_points_with(
        net,
        w,
        h,
        k,
        l,
        p,
        q,
        p2,
        q2,
        points.len() < 6,
        out,
        scratch,
        out2,
        scratch2,
    ) {
        Ok((a, b)) => {
            store_points(a, b, points);
            0
        }
        Err(refusal) => refusal.number(),
    }
}

// The coarse net into `coarse`, and the details into `details`.
#[unsafe(no_mangle)]
pub extern "C" fn ups_split(
    net: &[i32],
    w: usize,
    h: usize,
    coarse: &mut [i32],
    details: &mut [i32],
) -> u32
    ensures value { result ≡ split_refusal_of net.now w h coarse.old details.old }
    ensures coarse_after { coarse.new ≡ split_coarse result net.now w h coarse.old }
    ensures details_after { details.new ≡ split_details result net.now w h details.old }
{
    number_of(split(net, w, h, coarse, details))
}

// The net that a coarse net and details merge to into `out`; w and h are those of the coarse net.
#[unsafe(no_mangle)]
pub extern "C" fn ups_merge(
    coarse: &[i32],
    details: &[i32],
    w: usize,
    h: usize,
    out: &mut [i32],
) -> u32
    ensures value { result ≡ merge_refusal_of coarse.now details.now w h out.old }
    ensures out_after { out.new
        ≡ output_after result (merged_net coarse.now details.now w h) out.old }
{
    number_of(merge(coarse, details, w, h, out))
}

// The details, cleaned in place; w and h are those of the fine net.
#[unsafe(no_mangle)]
pub extern "C" fn ups_clean(details: &mut [i32], w: usize, h: usize, t: u32) -> u32
    ensures value { result ≡ clean_refusal details.old w h t }
    ensures details_after { details.new
        ≡ output_after result (cleaned_details details.old w h t) details.old }
{
    number_of(clean(details, w, h, t))
}

// Whether an outline can be taken for a net of width w and height h. Where none of 1, 2, 13 and 5 refuses, the first
// numbers of `search`, one a triangle, are free afterwards.
#[unsafe(no_mangle)]
pub extern "C" fn ups_check_outline(outline: &[u8], w: usize, h: usize, search: &mut [u32]) -> u32
    ensures value { result ≡ check_refusal outline.now w h (length search.old) }
    ensures unchanged_from { UnchangedFrom (free_search (check_faults outline.now w h (length search.old)) w h)
        search.old search.new }
{
    number_of(check_outline(outline, w, h, search))
}

// The 57 numbers of a Bézier net of a present triangle into `out`.
#[unsafe(no_mangle)]
pub extern "C" fn ups_bezier_net_outlined(
    net: &[i32],
    w: usize,
    h: usize,
    outline: &[u8],
    i: usize,
    j: usize,
    down: u32,
    out: &mut [i32],
) -> u32
    ensures value { result ≡ outlined_bezier_refusal net.now w h outline.now i j down
        (length out.old) }
    ensures out_after { out.new
        ≡ output_after result (bezier_numbers net.now w (triangle_by i j down)) out.old }
{
    number_of(bezier_net_outlined(net, w, h, outline, i, j, down, out))
}

// The surface point at a place on the door into `out`.
#[unsafe(no_mangle)]
pub extern "C" fn ups_surface_point_outlined(
    net: &[i32],
    w: usize,
    h: usize,
    outline: &[u8],
    p: usize,
    q: usize,
    out: &mut [i32],
) -> u32
    ensures value { result ≡ outlined_point_export net.now w h outline.now p q
        (length out.old) }
    ensures out_after { out.new ≡ output_after result (surface_point net.now w h p q) out.old }
{
    match surface_point_outlined_with(net, w, h, outline, p, q, out.len() < 3) {
        Ok(point) => {
            store_point([point.x, point.y, point.z], 0, out);
            0
        }
        Err(refusal) => refusal.number(),
    }
}

// The viewer's point at a place on the door, in millimetres, into `out`.
#[unsafe(no_mangle)]
pub extern "C" fn ups_view_point_outlined(
    net: &[i32],
    w: usize,
    h: usize,
    outline: &[u8],
    p: usize,
    q: usize,
    out: &mut [f64],
) -> u32
    ensures value { result ≡ outlined_point_export net.now w h outline.now p q
        (length out.old) }
    ensures out_after { out.new ≡ output_after result (view_point net.now w h p q) out.old }
{
    match view_point_outlined_with(net, w, h, outline, p, q, out.len() < 3) {
        Ok(point) => {
            store_point([point.x, point.y, point.z], 0, out);
            0
        }
        Err(refusal) => refusal.number(),
    }
}

// The net refined by k steps into `out`, and its outline into `fine`. `scratch` is as in `ups_refine`, and `search` as
// in `ups_check_outline`: it is free after 14 and 3 too.
#[unsafe(no_mangle)]
pub extern "C" fn ups_refine_outlined(
    net: &[i32],
    w: usize,
    h: usize,
    k: usize,
    outline: &[u8],
    out: &mut [i32],
    scratch: &mut [i32],
    fine: &mut [u8],
    search: &mut [u32],
) -> u32
    ensures value { result ≡ outlined_refusal_of net.now w h k outline.now out.old
        scratch.old fine.old search.old }
    ensures outlined_left { OutlinedLeft result
        (faults_of net.now w h k outline.now out.old scratch.old
        fine.old search.old)
        net.now w h k outline.now out.old scratch.old fine.old
        search.old out.new scratch.new fine.new search.new }
{
    number_of(refine_outlined(net, w, h, k, outline, out, scratch, fine, search))
}

// The same, and the surface point at place (p, q) of the refined net, a place on the door, into `point`. Its last
// promise is demand 3.
#[unsafe(no_mangle)]
pub extern "C" fn ups_refined_point_outlined(
    net: &[i32],
    w: usize,
    h: usize,
    k: usize,
    outline: &[u8],
    p: usize,
    q: usize,
    out: &mut [i32],
    scratch: &mut [i32],
    fine: &mut [u8],
    search: &mut [u32],
    point: &mut [i32],
) -> u32
    ensures value { result ≡ outlined_refined_export net.now w h k outline.now p q out.old
        scratch.old fine.old search.old point.old }
    ensures outlined_left { OutlinedLeft result
        (point_faults_of net.now w h k outline.now p q (ltb (length point.old) 3)
        out.old scratch.old fine.old search.old)
        net.now w h k outline.now out.old scratch.old fine.old
        search.old out.new scratch.new fine.new search.new }
    ensures point_after { point.new
        ≡ output_after result (refined_surface_point net.now w h k p q) point.old }
    ensures claimed { result ≡ 0 → Claimed net.now w h k p q (result, take 3 point.new) }
{
    match refined_point_outlined_with(
        net,
        w,
        h,
        k,
        outline,
        p,
        q,
        point.len() < 3,
        out,
        scratch,
        fine,
        search,
    ) {
        Ok(at) => {
            store_point([at.x, at.y, at.z], 0, point);
            0
        }
        Err(refusal) => refusal.number(),
    }
}

// The net through given points into `out`. `given` has p, t1 and t2 of each vertex.
#[unsafe(no_mangle)]
pub extern "C" fn ups_from_points(given: &[i32], w: usize, h: usize, out: &mut [i32]) -> u32
    ensures value { result ≡ given_refusal_of given.now w h out.old }
    ensures out_after { out.new ≡ output_after result (hermite_net given.now w h) out.old }
{
    number_of(from_points(given, w, h, out))
}
