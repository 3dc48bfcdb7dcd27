// The six Bézier points of a small triangle in one coordinate, times 36: algorithm 2.2 of source document 000, step 2.
ghost use Rattle.std.specs.Prelude.{◌≡◌, ◌^◌};
ghost use Rattle.exact.specs.WeightedSum.{Within};
ghost use Rattle.de_casteljau.specs.Ordinates.{values_of, corner_s, corner_u, corner_v, ordinates};

// ck, cn and cm of a corner.
#[derive(Clone, Copy)]
pub struct Corner {
    pub k: i64,
    pub n: i64,
    pub m: i64,
}

// Source 000's Bézier ordinates b(λ1, λ2, λ3) of the small triangle: P, the middle of the edge P, Q, the centre.
#[derive(Clone, Copy)]
pub struct Ordinates {
    // sP
    pub b200: i64,
    // u
    pub b110: i64,
    // vP
    pub b101: i64,
    // r
    pub b020: i64,
    // m
    pub b011: i64,
    // z
    pub b002: i64,
}

// 3s of a corner.
fn three_s(c: Corner) -> i64
    requires { Within (2 ^ 32) (values_of c) }
    ensures { result ≡ corner_s c }
{
    c.k + c.n + c.m
}

// 6u of a corner, towards the next corner or the previous one.
fn six_u(ahead: bool, c: Corner) -> i64
    requires { Within (2 ^ 32) (values_of c) }
    ensures { result ≡ corner_u ahead c }
{
    let next = 4 * c.k + c.n + c.m;
    let previous = 3 * (c.k + c.n);
    if ahead { next } else { previous }
}

// 3v of a corner.
fn three_v(c: Corner) -> i64
    requires { Within (2 ^ 32) (values_of c) }
    ensures { result ≡ corner_v c }
{
    2 * c.k + c.n
}

// The six points of the corners P, Q and T, for `last_average`; `ahead` is whether Q is the next corner after P.
pub fn ordinates_of(ahead: bool, p: Corner, q: Corner, t: Corner) -> Ordinates
    requires { Within (2 ^ 32) (values_of p) × Within (2 ^ 32) (values_of q) × Within (2 ^ 32) (values_of t) }
    ensures { result ≡ ordinates ahead p q t }
{
    let s = three_s(p);
    let u = six_u(ahead, p);
    let u_back = six_u(!ahead, q);
    let v = three_v(p);
    let v_q = three_v(q);
    let v_t = three_v(t);
    let b200 = 12 * s;
    let b110 = 6 * u;
    let b101 = 12 * v;
    let b020 = 3 * (u + u_back);
    let b011 = 6 * (v + v_q);
    let b002 = 4 * (v + v_q + v_t);
    Ordinates {
        b200,
        b110,
        b101,
        b020,
        b011,
        b002,
    }
}
