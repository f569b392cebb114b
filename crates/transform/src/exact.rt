// The residuals of four blocks whose levels are small: no step saturates, and all fits 32 bits. `svq3_dequant` has the same in 64 bits,
// for any levels: a macroblock's residual takes 5.5 times as long there.
ghost use Rattle.std.specs.Prelude.{◌≡◌, ◌&&◌, ℕ, ◌+◌, ◌*◌, ◌/◌, ◌<◌, ◌≤◌, [], pos, nat_abs, length, take, get_or};
ghost use Rattle.transform.specs.Residual.{rounded};
ghost use Rattle.transform.specs.InnerPasses.{
  Small,
  sums_of,
  all_within,
  exact_at,
  SmallFrom,
  Exact,
  row_sums,
  Rows,
  column_sums,
  Columns,
};

use crate::Scale;

// The transform of four numbers, 13 (a ± c) and 17 b + 7 d or 7 b - 17 d each taken once.
fn sums(a: i32, b: i32, c: i32, d: i32) -> [i32; 4]
    requires { Small 40000000 a b c d }
    ensures { result ≡ sums_of a b c d }
{
    let e = 13 * (a + c);
    let f = 13 * (a - c);
    let g = 17 * b + 7 * d;
    let h = 7 * b - 17 * d;
    [e + g, f + h, f - h, e - g]
}

// Whether each number lies within -most to most. No `all`, which stops at the first that does not: the compiler tests several at once
// here, and a heavy macroblock took 11 % more instructions with it.
fn all_within(l: &[i32], most: u32) -> bool
    ensures { result ≡ all_within most l.now }
{
    let mut small = true;
    for v in l {
        small &= v.unsigned_abs() <= most;
    }
    small
}

// Whether each of 64 levels, times the entry, and each DC lie within ±800,000.
// At least 64 levels, or 16, here and in the other files: an array of so many would ask more of callers, who lend all that follow a place.
pub fn all_small(levels: &[i32], scale: u32, dc: &[i32; 4]) -> bool
    requires { (64 ≤ length levels.now) × (0 < scale) }
    ensures { result ≡ (all_within 800000 dc.now && all_within (800000 / scale) (take 64 levels.now)) }
{
    all_within(dc, 800000) & all_within(&levels[..64], 800000 / scale)
}

// Level n times the entry.
fn scale_small(levels: &[i32], n: usize, scale: Scale) -> i32
    requires { (n < length levels.now) × (nat_abs (exact_at scale.by levels.now n) ≤ 800000) }
    ensures { result ≡ exact_at scale.by levels.now n }
{
    levels[n] * (scale.by as i32)
}

// The first four levels, each times the entry, transformed.
fn row(levels: &[i32], scale: Scale) -> [i32; 4]
    requires { (4 ≤ length levels.now) × SmallFrom scale.by levels.now 0 }
    ensures { result ≡ row_sums scale.by levels.now 0 }
{
    let a = scale_small(levels, 0, scale);
    let b = scale_small(levels, 1, scale);
    let c = scale_small(levels, 2, scale);
    let d = scale_small(levels, 3, scale);
    sums(a, b, c, d)
}

// The sixteen rows of four blocks, transformed. A closure for `from_fn` would have to repeat in its clauses what `row` requires.
pub fn rows(levels: &[i32], scale: Scale) -> [[i32; 4]; 16]
    requires { Exact scale.by levels.now }
    ensures { Rows scale.by levels.now 16 result }
{
    let mut y = [[0i32; 4]; 16];
    for (i, sums) in y.iter_mut().enumerate() {
        *sums = row(&levels[4 * i..], scale);
    }
    y
}

// A sum with the DC, rounded: `finish`, in 32 bits.
// The bound of the DC is a clause of three functions that hand it down: a struct of the one number would be made for `columns` and opened here.
fn round(t: i32, dc: i32) -> i16
    requires { (nat_abs t ≤ 2000000000) × (nat_abs dc ≤ 800000) }
    ensures { result ≡ rounded t dc }
{
    ((t + 169 * dc + 524288) >> 20) as i16
}

// Column c of the block of the first four rows, transformed and rounded.
fn column(rows: &[[i32; 4]], c: usize, dc: i32) -> [i16; 4]
    requires { (4 ≤ length rows.now) × (c < 4) × (nat_abs dc ≤ 800000) × ((k : ℕ) → nat_abs (get_or (get_or rows.now k []) c (pos 0)) ≤ 40000000) }
    ensures { result ≡ column_sums rows.now c dc }
{
    let [p, q, r, s] = sums(rows[0][c], rows[1][c], rows[2][c], rows[3][c]);
    [round(p, dc), round(q, dc), round(r, dc), round(s, dc)]
}

// The residuals of the block of the first four rows. Columns are stored as they come: by transposition the compiler makes scalar code
// of one pass (docs/SPEED.md).
pub fn columns(rows: &[[i32; 4]], dc: i32) -> [i16; 16]
    requires { (4 ≤ length rows.now) × (nat_abs dc ≤ 800000) × ((k c : ℕ) → nat_abs (get_or (get_or rows.now k []) c (pos 0)) ≤ 40000000) }
    ensures { Columns rows.now dc 4 result }
{
    let mut r = [0i16; 16];
    for c in 0..4 {
        let t = column(rows, c, dc);
        r[c] = t[0];
        r[c + 4] = t[1];
        r[c + 8] = t[2];
        r[c + 12] = t[3];
    }
    r
}
