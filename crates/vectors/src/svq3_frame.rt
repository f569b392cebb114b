// A partition's vector: predicted from its neighbours, turned to the precision's unit, moved by a difference, and stored.
ghost use Rattle.std.specs.Prelude.{◌≡◌, ◌||◌, ◌+◌, ◌*◌, ◌≤◌, ◌<◌, pos, nat_abs, ◌+ℤ◌, ◌*ℤ◌, length};
ghost use Rattle.ints.specs.Z.{sat_z, over_z, floor_z};
ghost use Rattle.picture.specs.Painted.{Inside};
ghost use Rattle.picture.specs.Picture.{always};
ghost use Rattle.picture.specs.InnerRows.{row};
ghost use Rattle.vectors.specs.Predict.{vector_in, median_of, combined, held_in};
ghost use Rattle.vectors.specs.InnerSamples.{units_in_sample};
ghost use Rattle.vectors.specs.Units.{convert_predictor, stored_scale, stored_part, clipped_part};
ghost use Rattle.vectors.specs.Stored.{pair_of, stored_vectors, stored_marks};

use crate::svq3_mb::Svq3MvPrecision;
use ints::{median3, sat_add, sat_mul};
use picture::Grid;

// A component of a stored vector or of its predictor.
#[derive(Clone, Copy, Default)]
pub struct Sixths(pub i32);

// A component in the precision's unit: a difference, or a predictor that was converted.
#[derive(Clone, Copy)]
pub struct Units(pub i32);

// A stored vector. The default is vector 0.
#[derive(Clone, Copy, Default)]
pub struct Vector {
    pub x: Sixths,
    pub y: Sixths,
}

impl Vector {
    // Vector i of a list of numbers, two for each.
    pub fn at(mv: &[i32], i: usize) -> Self
        requires { 2 * i + 1 < length mv.now }
        ensures { result ≡ vector_in mv.now i }
    {
        Vector {
            x: Sixths(mv[2 * i]),
            y: Sixths(mv[2 * i + 1]),
        }
    }
}

// The median of each component.
pub fn median_of(a: Vector, b: Vector, c: Vector) -> Vector
    ensures { result ≡ median_of a b c }
{
    Vector {
        x: Sixths(median3(a.x.0, b.x.0, c.x.0)),
        y: Sixths(median3(a.y.0, b.y.0, c.y.0)),
    }
}

// The prediction from the neighbours A, B and C: none where it lies off the picture or is marked 0.
pub fn combined(a: Option<Vector>, b: Option<Vector>, c: Option<Vector>) -> Vector
    ensures { result ≡ combined a b c }
{
    if u32::from(a.is_some()) + u32::from(b.is_some()) + u32::from(c.is_some()) < 2 {
        return a.or(b.or(c)).unwrap_or_default();
    }
    median_of(
        a.unwrap_or_default(),
        b.unwrap_or_default(),
        c.unwrap_or_default(),
    )
}

// p, held so that the span that it points to lies in the picture.
pub fn held_in(side: usize, place: usize, span: usize, p: Sixths) -> Sixths
    requires { (place + span ≤ side) × (side ≤ 65536) }
    ensures { result.0 ≡ held_in side place span p.0 }
{
    let at = 6 * (place as i64);
    let most = 6 * ((side - span) as i64);
    Sixths(((at + (p.0 as i64)).clamp(0, most) - at) as i32)
}

// How many units a sample is.
fn units_in_sample(precision: Svq3MvPrecision) -> i32
    ensures { result ≡ pos (units_in_sample precision) }
{
    match precision {
        Svq3MvPrecision::Fullpel => 1,
        Svq3MvPrecision::Halfpel => 2,
        Svq3MvPrecision::Thirdpel => 3,
    }
}

// (v + 3) / 6, rounded down: 6 · 262144 more is positive. With div_euclid a macroblock of 16 partitions took 6 % more instructions.
fn floor_of_sixth(v: i32) -> i32
    requires { nat_abs v ≤ 1179648 }
    ensures { result ≡ floor_z (v +ℤ pos 3) 6 }
{
    let n = (v + 1572867) as u32 / 6;
    (n as i32) - 262144
}

// A held predictor in the precision's unit.
pub fn convert_predictor(p: Sixths, precision: Svq3MvPrecision) -> Units
    requires { nat_abs p.0 ≤ 393216 }
    ensures { result.0 ≡ convert_predictor precision p.0 }
{
    let n = units_in_sample(precision);
    Units(floor_of_sixth(n * p.0))
}

// How many sixths a unit is. As 6 / units_in_sample it took 3 % more instructions in a macroblock of 16 partitions, with their prediction.
pub fn stored_scale(precision: Svq3MvPrecision) -> i32
    ensures { result ≡ pos (stored_scale precision) }
{
    match precision {
        Svq3MvPrecision::Fullpel => 6,
        Svq3MvPrecision::Halfpel => 3,
        Svq3MvPrecision::Thirdpel => 2,
    }
}

// A component in sixths, and whether a sum or a product went beyond i32 on the way: a clipped component is a value too, and is counted.
#[derive(Clone, Copy)]
pub struct Moved {
    pub value: Sixths,
    pub clipped: bool,
}

// Units in sixths.
pub fn stored(u: Units, precision: Svq3MvPrecision) -> Moved
    ensures value_value { result.value.0 ≡ sat_z (u.0 *ℤ pos (stored_scale precision)) }
    ensures clipped_value { result.clipped ≡ over_z (u.0 *ℤ pos (stored_scale precision)) }
{
    let product = sat_mul(u.0, stored_scale(precision));
    Moved {
        value: Sixths(product.value),
        clipped: product.over,
    }
}

// A predictor in units moved by the difference d, each step held in i32.
fn move_held(from: Units, precision: Svq3MvPrecision, d: Units) -> Moved
    ensures value_value { result.value.0 ≡ sat_z (sat_z (from.0 +ℤ d.0) *ℤ pos (stored_scale precision)) }
    ensures clipped_value { result.clipped ≡ (over_z (from.0 +ℤ d.0) || over_z (sat_z (from.0 +ℤ d.0) *ℤ pos (stored_scale precision))) }
{
    let sum = sat_add(from.0, d.0);
    let moved = stored(Units(sum.value), precision);
    let value = moved.value;
    Moved {
        value,
        clipped: sum.over | moved.clipped,
    }
}

// The held predictor p moved by the difference d. A sum of less than 29 bits is clipped at no precision.
pub fn move_component(p: Sixths, precision: Svq3MvPrecision, d: Units) -> Moved
    requires { nat_abs p.0 ≤ 393216 }
    ensures value_value { result.value.0 ≡ stored_part precision p.0 d.0 }
    ensures clipped_value { result.clipped ≡ clipped_part precision p.0 d.0 }
{
    let from = convert_predictor(p, precision);
    let sum = (from.0 as i64) + (d.0 as i64);
    if (sum < -268435456) | (sum > 268435455) {
        return move_held(from, precision, d);
    }
    let scale = stored_scale(precision);
    let value = (sum as i32) * scale;
    Moved {
        value: Sixths(value),
        clipped: false,
    }
}

// 1 at n cells, from cell `at` on.
pub fn mark_row(marks: &mut [u8], at: usize, n: usize)
    requires { at + n ≤ length marks.old }
    ensures { marks.new ≡ row marks.old at (always 1 0) n }
{
    marks[at..at + n].fill(1);
}

// A skipped macroblock: its sixteen cells get vector 0, marked 1. Vectors and marks are written here, so that what picture's Cells
// states of them, lent for reading, is a clause.
pub fn mark_macroblock(mv: &mut [i32], marks: &mut [u8], grid: Grid, column: usize, row: usize)
    requires { (grid.cols ≤ 4096) × (length mv.old ≡ 2 * length marks.old) × Inside (4 * grid.cols) (4 * column) (4 * row) 4 4 (length marks.old) }
    ensures mv_after { mv.new ≡ stored_vectors mv.old (4 * grid.cols) (4 * column) (4 * row) 4 4 (pos 0) (pos 0) }
    ensures marks_after { marks.new ≡ stored_marks marks.old (4 * grid.cols) (4 * column) (4 * row) 4 4 }
{
    let stride = 4 * grid.cols;
    let x = 4 * column;
    let y = 4 * row;
    for r in 0..4 {
        let at = (y + r) * stride + x;
        mv[2 * at..2 * at + 8].fill(0);
        mark_row(marks, at, 4);
    }
}
