// Whether a place is on the door: only the cells that the place lies in can have it, at most four.
ghost use Rattle.std.specs.Prelude.{◌≡◌, false, ◌≤◌, ◌<◌, length};
ghost use Rattle.places.specs.Refusals.{no_place};
ghost use Rattle.outline.specs.Outline.{triangles};
ghost use Rattle.door.specs.Door.{lies_up, lies_down, on_door};
ghost use Rattle.door.specs.Cells.{Small, cell_has};

use net::Size;

// Whether place (p, q) lies in the up triangle of cell (i, j), and whether it lies in the down triangle.
fn lies_up(d: usize, p: usize, q: usize, i: usize, j: usize) -> bool
    requires { Small d p q i j }
    ensures { result ≡ lies_up d p q i j }
{
    (d * i <= p) & (d * j <= q) & (p + q <= d * i + d * j + d)
}

fn lies_down(d: usize, p: usize, q: usize, i: usize, j: usize) -> bool
    requires { Small d p q i j }
    ensures { result ≡ lies_down d p q i j }
{
    (p <= d * i + d) & (q <= d * j + d) & (d * i + d * j + d <= p + q)
}

// Whether cell (i, j) is in the grid and has a present triangle in which the place lies.
fn cell_has(outline: &[u8], size: Size, d: usize, p: usize, q: usize, i: usize, j: usize) -> bool
    requires { (triangles size.w size.h ≤ length outline.now) × Small d p q i j }
    ensures { result ≡ cell_has d outline.now size.w size.h p q i j }
{
    if size.w <= i + 1 {
        return false;
    }
    if size.h <= j + 1 {
        return false;
    }
    let at = 2 * (j * (size.w - 1) + i);
    let up = (outline[at] == 1) & lies_up(d, p, q, i, j);
    let down = (outline[at + 1] == 1) & lies_down(d, p, q, i, j);
    up | down
}

// Whether place (p, q), in d-ths of an edge, lies in a present triangle. The cells that can have it are those of
// column p/d and of the column before, where the place may lie on the edge between them, and of rows so. For the calls
// on points with an outline, which have refused every other outline and place.
pub fn on_door(outline: &[u8], size: Size, d: usize, p: usize, q: usize) -> bool
    requires { (triangles size.w size.h ≤ length outline.now) × (0 < d) × (d ≤ 65536)
        × (no_place d size.w size.h p q ≡ false) }
    ensures { result ≡ on_door d outline.now size.w size.h p q }
{
    let i = p / d;
    let j = q / d;
    let k = i.saturating_sub(1);
    let l = j.saturating_sub(1);
    let here = cell_has(outline, size, d, p, q, i, j);
    let left = cell_has(outline, size, d, p, q, k, j);
    let below = cell_has(outline, size, d, p, q, i, l);
    let both = cell_has(outline, size, d, p, q, k, l);
    here | left | below | both
}
