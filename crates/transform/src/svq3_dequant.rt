// Levels times the quantiser's entry, the transform of a block of 4 × 4, and the chroma DC. All saturates at i32.
ghost use Rattle.std.specs.Prelude.{◌≡◌, ◌≤◌, ◌<◌, [], ◌∷◌, pos, ◌*ℤ◌, length};
ghost use Rattle.ints.specs.Z.{sat_z};
ghost use Rattle.transform.specs.Tables.{dequant_coeff, chroma_quantiser_index, chroma_coeff};
ghost use Rattle.transform.specs.Residual.{placed, listed, scaled, rows_of, rounded, residual};
ghost use Rattle.transform.specs.ChromaDc.{sat_half, secondary, chroma_dc};
ghost use Rattle.transform.specs.InnerArrays.{turned, weighed_row, short, shortened, finished};

use crate::{Quantiser, Scale};
use std::array;

// Statics: a constant array is stored on the stack anew at each use.
static DEQUANT_COEFF_TABLE: [u32; 32] = [
    3881, 4351, 4890, 5481, 6154, 6914, 7761, 8718, 9781, 10987, 12339, 13828, 15523, 17435, 19561,
    21873, 24552, 27656, 30847, 34870, 38807, 43747, 49103, 54683, 61694, 68745, 77615, 89113,
    100253, 109366, 126635, 141533,
];

static CHROMA_QUANTISER_INDEX: [u32; 32] = [
    0, 1, 2, 3, 4, 5, 6, 7, 8, 9, 10, 11, 12, 13, 14, 15, 16, 17, 17, 18, 19, 20, 20, 21, 22, 22,
    23, 23, 24, 24, 25, 25,
];

static MATRIX: [[i8; 4]; 4] = [
    [13, 17, 13, 7],
    [13, 7, -13, -17],
    [13, -7, -13, 17],
    [13, -17, 13, -7],
];

pub fn dequant_coeff(q: Quantiser) -> Scale
    ensures { result.by ≡ dequant_coeff q.number }
{
    Scale {
        by: DEQUANT_COEFF_TABLE[q.number as usize],
    }
}

// The quantiser whose entry scales the chroma levels.
pub fn chroma_quantiser_index(q: Quantiser) -> Quantiser
    ensures { result.number ≡ chroma_quantiser_index q.number }
{
    Quantiser {
        number: CHROMA_QUANTISER_INDEX[q.number as usize],
    }
}

// What a chroma level is multiplied by.
pub fn chroma_coeff(q: Quantiser) -> Scale
    ensures { result.by ≡ chroma_coeff q.number }
{
    dequant_coeff(chroma_quantiser_index(q))
}

// A level times the quantiser's entry.
fn scale_level(level: i32, scale: Scale) -> i32
    ensures { result ≡ sat_z (level *ℤ pos scale.by) }
{
    level.saturating_mul(scale.by as i32)
}

// The first sixteen levels, each times the quantiser's entry.
fn scale_luma_block_by_quantiser(levels: &[i32], scale: Scale) -> [i32; 16]
    requires { 16 ≤ length levels.now }
    ensures { result ≡ listed (scaled scale.by (placed levels.now 0)) }
{
    array::from_fn(|n| scale_level(levels[n], scale))
}

// Row i of a block by row k of the matrix, whose coefficients have 8 bits: so each step fits.
fn weigh_row(k: usize, x: &[i32; 16], i: usize) -> i32
    requires { (k < 4) × (i < 4) }
    ensures { result ≡ weighed_row k x.now i }
{
    let [p, q, r, s] = MATRIX[k];
    ints::sat_i32(
        (p as i64) * (x[4 * i] as i64)
            + (q as i64) * (x[4 * i + 1] as i64)
            + (r as i64) * (x[4 * i + 2] as i64)
            + (s as i64) * (x[4 * i + 3] as i64),
    )
}

// Each row of a block by row k of the matrix. By its literal number at each of four calls: the compiler then knows the coefficients, and
// holds a sum without a branch. With one loop over all sixteen sums, drawn levels that saturate took 2.5 times as long (1,230 ns a quadrant, not 480).
fn weigh_rows(k: usize, x: &[i32; 16]) -> [i32; 4]
    requires { k < 4 }
    ensures { result ≡ weighed_row k x.now 0 ∷ weighed_row k x.now 1 ∷ weighed_row k x.now 2 ∷ weighed_row k x.now 3 ∷ [] }
{
    array::from_fn(|i| weigh_row(k, x, i))
}

// Each row of a block transformed, and the block turned over: a second pass goes over the columns, and turns it back.
fn apply_luma_transform_rows(x: &[i32; 16]) -> [i32; 16]
    ensures { result ≡ listed (turned (rows_of (placed x.now 0))) }
{
    let y = [
        weigh_rows(0, x),
        weigh_rows(1, x),
        weigh_rows(2, x),
        weigh_rows(3, x),
    ];
    array::from_fn(|n| y[n / 4][n % 4])
}

// What the transform gave, with its DC, rounded and held in 16 bits.
pub fn finish(t: i32, dc: i32) -> i16
    ensures { result ≡ short (rounded t dc) }
{
    (((t as i64) + 169 * (dc as i64) + 524288) >> 20).clamp(-4096, 4095) as i16
}

fn finish_block(t: &[i32; 16], dc: i32) -> [i16; 16]
    ensures { result ≡ listed (shortened (finished dc (placed t.now 0))) }
{
    array::from_fn(|n| finish(t[n], dc))
}

// The residuals of the first sixteen levels.
pub fn dequantize_transform_luma_block_with_dc(levels: &[i32], scale: Scale, dc: i32) -> [i16; 16]
    requires { 16 ≤ length levels.now }
    ensures { result ≡ listed (shortened (residual scale.by dc (placed levels.now 0))) }
{
    let x = scale_luma_block_by_quantiser(levels, scale);
    let y = apply_luma_transform_rows(&x);
    let z = apply_luma_transform_rows(&y);
    finish_block(&z, dc)
}

// `sat_i32` is the one place where a wide number is held and cast: a `clamp` here would repeat both, and the bounds.
fn halve(v: i64) -> i32
    ensures { result ≡ sat_half v }
{
    ints::sat_i32(v / 2)
}

// The four sums, by the place of their block.
pub fn chroma_dc_secondary_transform(a: i32, b: i32, c: i32, d: i32) -> [i32; 4]
    ensures { result ≡ secondary a b c d }
{
    let (a, b, c, d) = (a as i64, b as i64, c as i64, d as i64);
    [
        halve(a + b + c + d),
        halve(a - b + c - d),
        halve(a + b - c - d),
        halve(a - b - c + d),
    ]
}

// The DC of the four blocks of a chroma plane, from the first four levels.
pub fn dequantize_chroma_dc_levels(levels: &[i32], q: Quantiser) -> [i32; 4]
    requires { 4 ≤ length levels.now }
    ensures { result ≡ chroma_dc (chroma_coeff q.number) levels.now 0 }
{
    let scale = chroma_coeff(q);
    let a = scale_level(levels[0], scale);
    let b = scale_level(levels[1], scale);
    let c = scale_level(levels[2], scale);
    let d = scale_level(levels[3], scale);
    chroma_dc_secondary_transform(a, b, c, d)
}
