// Four numbers of a row, and four by four of a matrix, held side by side.
ghost use Rattle.std.specs.Prelude.{◌+◌, ◌*◌, ◌≤◌, length};
ghost use Rattle.steps.specs.Num.{cell as cell_of};
ghost use Rattle.pairs.specs.Tiles.{FourOf, TileOf, Took, TileTook, PutFour, PutTile};

use slices::inner::{cell, put};

#[derive(Clone, Copy)]
pub struct Four {
    pub a: f64,
    pub b: f64,
    pub c: f64,
    pub d: f64,
}

#[derive(Clone, Copy)]
pub struct Tile {
    pub a: Four,
    pub b: Four,
    pub c: Four,
    pub d: Four,
}

// Four numbers of row i from column q on.
pub fn four_at(s: &[f64], n: usize, i: usize, q: usize) -> Four
    requires { ((i + 1) * n ≤ length s.now) × (q + 4 ≤ n) }
    ensures { FourOf (cell_of n s.now i) q result }
{
    Four {
        a: cell(s, n, i, q),
        b: cell(s, n, i, q + 1),
        c: cell(s, n, i, q + 2),
        d: cell(s, n, i, q + 3),
    }
}

// They become f.
pub fn put_four(s: &mut [f64], n: usize, i: usize, q: usize, f: Four)
    requires { ((i + 1) * n ≤ length s.old) × (q + 4 ≤ n) }
    ensures { PutFour n i q f s.old s.new }
{
    put(s, n, i, q, f.a);
    put(s, n, i, q + 1, f.b);
    put(s, n, i, q + 2, f.c);
    put(s, n, i, q + 3, f.d);
}

// One row more: four sums take the products of x and four numbers.
pub fn four_more(s: Four, x: f64, y: Four) -> Four
    ensures { Took s x y result }
{
    Four {
        a: s.a + x * y.a,
        b: s.b + x * y.b,
        c: s.c + x * y.c,
        d: s.d + x * y.d,
    }
}

// The numbers of the rows p to p + 3 and the columns q to q + 3.
pub fn tile_at(s: &[f64], n: usize, p: usize, q: usize) -> Tile
    requires { ((p + 4) * n ≤ length s.now) × (p + 4 ≤ n) × (q + 4 ≤ n) }
    ensures { TileOf (cell_of n s.now) p q result }
{
    Tile {
        a: four_at(s, n, p, q),
        b: four_at(s, n, p + 1, q),
        c: four_at(s, n, p + 2, q),
        d: four_at(s, n, p + 3, q),
    }
}

// They become t.
pub fn put_tile(s: &mut [f64], n: usize, p: usize, q: usize, t: Tile)
    requires { ((p + 4) * n ≤ length s.old) × (p + 4 ≤ n) × (q + 4 ≤ n) }
    ensures { PutTile n p q t s.old s.new }
{
    put_four(s, n, p, q, t.a);
    put_four(s, n, p + 1, q, t.b);
    put_four(s, n, p + 2, q, t.c);
    put_four(s, n, p + 3, q, t.d);
}

// One row more: the sums of each row take the products of its number and the columns' four.
pub fn tile_more(t: Tile, x: Four, y: Four) -> Tile
    ensures { TileTook t x y result }
{
    Tile {
        a: four_more(t.a, x.a, y),
        b: four_more(t.b, x.b, y),
        c: four_more(t.c, x.c, y),
        d: four_more(t.d, x.d, y),
    }
}
