// Whether the present triangles of an outline are connected. Triangles that share an edge are joined by links, cell by
// cell, so that what is joined has one root.
ghost use Rattle.std.specs.Prelude.{◌≡◌, true, ◌+◌, ◌≤◌, ◌<◌, eqb, length};
ghost use Rattle.exact.specs.Filling.{UnchangedFrom};
ghost use Rattle.graphs.specs.Walks.{Judged};
ghost use Rattle.graphs.specs.Links.{Linked, JoinedIf};
ghost use Rattle.outline.specs.Outline.{triangles};
ghost use Rattle.outline.specs.Connected.{Connected, connected};
ghost use Rattle.outline.specs.Search.{Searched, Joined, InCell, InRow, Anywhere, joins, roots};

use crate::bytes::count_triangles;
use graphs::{join, link_self};
use net::Size;

// Two bytes, joined where there is such an edge (`inside`) and both are present.
fn join_present(outline: &[u8], links: &mut [u32], inside: bool, a: usize, b: usize)
    requires { (length links.old ≤ length outline.now) × (length links.old ≤ 2097152) × Linked links.old
        × (inside ≡ true → (a < length links.old) × (b < length links.old)) }
    ensures { JoinedIf (joins outline.now inside a b) links.old links.new a b }
{
    if inside {
        if (outline[a] == 1) & (outline[b] == 1) {
            join(links, a, b);
        }
    }
}

// The edges of the down triangle of cell (i, j), along e2, e3 and e1. In the last cell of a row no triangle is beyond
// e3, and in the last row none is beyond e1.
fn join_cell(outline: &[u8], w: usize, h: usize, i: usize, j: usize, links: &mut [u32])
    requires { Searched outline.now w h links.old × (i + 2 ≤ w) × (j + 2 ≤ h) }
    ensures { Joined (InCell i j) outline.now w h links.old links.new }
{
    let at = 2 * (j * (w - 1) + i);
    join_present(outline, links, true, at, at + 1);
    join_present(outline, links, i + 2 < w, at + 1, at + 2);
    join_present(outline, links, j + 2 < h, at + 1, at + 2 * (w - 1));
}

// The edges of the cells of row j.
fn join_row(outline: &[u8], w: usize, h: usize, j: usize, links: &mut [u32])
    requires { Searched outline.now w h links.old × (j + 2 ≤ h) }
    ensures { Joined (InRow j) outline.now w h links.old links.new }
{
    for i in 0..w - 1 {
        join_cell(outline, w, h, i, j, links);
    }
}

// The edges of all cells.
fn join_cells(outline: &[u8], w: usize, h: usize, links: &mut [u32])
    requires { Searched outline.now w h links.old }
    ensures { Joined Anywhere outline.now w h links.old links.new }
{
    for j in 0..h - 1 {
        join_row(outline, w, h, j, links);
    }
}

// Whether exactly one present triangle is a root. Counted without an early return, several at once.
fn one_root(outline: &[u8], links: &[u32]) -> bool
    requires { (length links.now ≤ length outline.now) × (length links.now ≤ 2097152) }
    ensures { result ≡ eqb (roots outline.now links.now (length links.now)) 1 }
{
    let mut count = 0u32;
    for (t, &link) in links.iter().enumerate() {
        count += ((outline[t] == 1) & (link == t as u32)) as u32;
    }
    count == 1
}

// Whether the present triangles are connected, over one link a triangle.
fn connected_over(outline: &[u8], size: Size, links: &mut [u32]) -> bool
    requires { (triangles size.w size.h ≤ length outline.now)
        × (length links.old ≡ triangles size.w size.h) }
    ensures { Judged (Connected outline.now size.w size.h) result }
{
    link_self(links);
    join_cells(outline, size.w, size.h, links);
    one_root(outline, links)
}

// The same over the front of the search, which is free afterwards. For the calls that check an outline or refine with
// one, which have refused every slice that is too short.
pub fn is_connected(outline: &[u8], size: Size, search: &mut [u32]) -> bool
    requires { (triangles size.w size.h ≤ length outline.now)
        × (triangles size.w size.h ≤ length search.old) }
    ensures value { result ≡ connected outline.now size.w size.h }
    ensures unchanged_from { UnchangedFrom (triangles size.w size.h) search.old search.new }
{
    let n = count_triangles(size);
    connected_over(outline, size, &mut search[..n])
}
