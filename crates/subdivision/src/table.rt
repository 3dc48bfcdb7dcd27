// The weights of one refinement over 12, in one constant table.
ghost use Rattle.std.specs.Prelude.{◌≡◌};
ghost use Rattle.subdivision.specs.WeightTable.{weights};

// Four kinds of vertices (kept, then edges along e1, e2, e3), controls 1, 2, 3, and the weights of a1 a2 a3 b1 b2 b3.
pub const WEIGHTS: [[[u8; 6]; 3]; 4] = [
    [[8, 2, 2, 0, 0, 0], [2, 8, 2, 0, 0, 0], [2, 2, 8, 0, 0, 0]],
    [[0, 0, 0, 0, 6, 6], [6, 3, 0, 0, 3, 0], [6, 0, 3, 0, 0, 3]],
    [[3, 6, 0, 3, 0, 0], [0, 0, 0, 6, 0, 6], [0, 6, 3, 0, 0, 3]],
    [[3, 0, 6, 3, 0, 0], [0, 3, 6, 0, 3, 0], [0, 0, 0, 6, 6, 0]],
];

// The table, tied to its definition.
pub fn weight_table() -> [[[u8; 6]; 3]; 4]
    ensures { result ≡ weights }
{
    WEIGHTS
}
