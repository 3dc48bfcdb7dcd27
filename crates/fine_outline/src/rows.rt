// The outline of a refined net, written row by row, and each row starting cell by starting cell.
ghost use Rattle.std.specs.Prelude.{◌≡◌, cond, ◌+◌, ◌-◌, ◌*◌, ◌≤◌, ◌<◌, leb, length};
ghost use Rattle.std.proofs.lemmas.List.Edits.{sets};
ghost use Rattle.exact.specs.Filling.{over};
ghost use Rattle.subdivision.specs.Refinement.{side_after};
ghost use Rattle.outline.specs.Outline.{triangles};
ghost use Rattle.fine_outline.specs.FineOutline.{fine_outline};
ghost use Rattle.fine_outline.specs.Rows.{cell_run, row_run, RowReady};

use steps::{Steps, side_after};

// The byte of a fine triangle that has x cells below and left of it in its starting cell of s: the down triangle's from
// the diagonal on, else the up triangle's.
fn parent_byte(up: u8, down: u8, s: usize, x: usize) -> u8
    ensures { result ≡ cond (leb s x) down up }
{
    if s <= x { down } else { up }
}

// The part of a fine row that lies in one starting cell. One choice a byte: two fills would be calls of the C library.
fn write_cell(up: u8, down: u8, s: usize, g: usize, at: usize, fine: &mut [u8])
    requires { (g < s) × (s ≤ 64) × (at + 2 * s ≤ length fine.old) }
    ensures { fine.new ≡ sets fine.old at (cell_run up down s g) }
{
    for n in 0..2 * s {
        let b = parent_byte(up, down, s, n / 2 + g + n % 2);
        fine[at + n] = b;
    }
}

// Fine row r.
fn write_row(outline: &[u8], w: usize, h: usize, s: usize, r: usize, fine: &mut [u8])
    requires { RowReady outline.now w h s fine.old × (r < s * (h - 1)) }
    ensures { fine.new
        ≡ sets fine.old (r * ((w - 1) * (2 * s))) (row_run outline.now w s r) }
{
    let cells = w - 1;
    let part = 2 * s;
    let g = r % s;
    let from = r / s * cells;
    let at = r * (cells * part);
    for i in 0..cells {
        let n = 2 * (from + i);
        let up = outline[n];
        let down = outline[n + 1];
        write_cell(up, down, s, g, at + i * part, fine);
    }
}

// The outline of the net after the steps, over the front of `fine`. For `outlined_refine` and
// `outlined_refined_points`, which have refused every other length.
pub fn write_fine_outline(outline: &[u8], steps: Steps, fine: &mut [u8])
    requires { (triangles steps.w steps.h ≤ length outline.now)
        × (triangles (side_after steps.k steps.w) (side_after steps.k steps.h) ≤ length fine.old) }
    ensures { fine.new ≡ over (fine_outline outline.now steps.w steps.h steps.k) fine.old }
{
    let s = side_after(2, steps.k) - 1;
    let rows = s * (steps.h - 1);
    for r in 0..rows {
        write_row(outline, steps.w, steps.h, s, r, fine);
    }
}
