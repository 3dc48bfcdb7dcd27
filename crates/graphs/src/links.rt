// Links between numbers: what is joined has one root.
ghost use Rattle.std.specs.Prelude.{◌≡◌, [], ◌∷◌, ◌<◌, ◌≤◌, length};
ghost use Rattle.exact.specs.Filling.{runs};
ghost use Rattle.graphs.specs.Links.{Linked, Root, JoinedAt};

// Each number links to itself. For the search of `outline`, which has at most so many triangles.
pub fn link_self(links: &mut [u32])
    requires { length links.old ≤ 2097152 }
    ensures { links.new ≡ runs (length links.old) (λ t. t ∷ []) }
{
    for (t, link) in links.iter_mut().enumerate() {
        *link = t as u32;
    }
}

// Where the links from t end. A `while`: it follows links and counts nothing.
fn root_of(links: &[u32], t: usize) -> usize
    requires { (t < length links.now) × Linked links.now }
    ensures { Root links.now t result }
{
    let mut r = t;
    let mut up = links[r] as usize;
    while up < r {
        r = up;
        up = links[r] as usize;
    }
    r
}

// The two roots become one: the greater links to the smaller. For the search of `outline`, which keeps the links going
// down.
pub fn join(links: &mut [u32], a: usize, b: usize)
    requires { (a < length links.old) × (b < length links.old) × (length links.old ≤ 2097152)
        × Linked links.old }
    ensures { JoinedAt links.old links.new a b }
{
    let r = root_of(links, a);
    let s = root_of(links, b);
    if r < s {
        links[s] = r as u32;
    } else {
        links[r] = s as u32;
    }
}
