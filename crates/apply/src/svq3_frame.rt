// Compensation of each partition of a macroblock, in one plane.
ghost use Rattle.std.specs.Prelude.{◌≡◌, true, false, ◌/◌, ◌<◌, ◌≤◌, pos, length};
ghost use Rattle.ints.specs.Z.{toward_zero};
ghost use Rattle.compensation.specs.InnerBlock.{Span};
ghost use Rattle.compensation.specs.InnerTaps.{Placed, TapsIn};
ghost use Rattle.vectors.specs.Modes.{num_motion_vectors};
ghost use Rattle.apply.specs.Moved.{unit, vector_x, vector_y, moved_once, moved_up_to};
ghost use Rattle.apply.specs.InnerMoved.{PlanesSized, part_block};

use compensation::plane::Plane;
use compensation::svq3_mc::{Taps, compensate_both, compensate_taps, taps_of};
use picture::{Block, Reference, Size};
use state::Macroblock;
use vectors::svq3_mb::{Partition, num_motion_vectors};

// A number of a plane: chroma has half as many samples each way. By a truth value, here and below: luma and chroma are the planes that there are, and a unit of 1 or 2 would be one more number to ask of callers.
fn over(chroma: bool, v: usize) -> usize
    ensures { result ≡ v / unit chroma }
{
    if chroma { v / 2 } else { v }
}

// A vector as a plane has it: chroma halves it toward zero.
fn vector_over(chroma: bool, component: i32) -> i32
    ensures { result ≡ toward_zero component (unit chroma) }
{
    if chroma { component / 2 } else { component }
}

// Where partition i lies in a plane of a picture of that grid.
fn block_of(mb: Macroblock, chroma: bool, i: usize) -> Block
    requires { i < num_motion_vectors mb.call.mode }
    ensures { result ≡ part_block (unit chroma) mb.grid.cols mb.call i }
{
    let part = Partition::of_mode(mb.call.mode, i);
    let column = mb.call.column as usize;
    let row = mb.call.row as usize;
    Block {
        stride: over(chroma, 16) * mb.grid.cols,
        x: over(chroma, 16 * column + 4 * part.x),
        y: over(chroma, 16 * row + 4 * part.y),
        w: over(chroma, 4 * part.wide),
        h: over(chroma, 4 * part.high),
    }
}

// How partition i, which is the block b, reads its taps in a plane of that size.
fn taps_in(vectors: &[i32; 32], b: Block, size: Size, chroma: bool, i: usize) -> Taps
    requires width_nonzero { (0 < size.width) × (size.width ≤ 65536) × (0 < size.height) × (size.height ≤ 65536) × (i < 16) }
    requires span { Span b.w b.h × (b.x < 131072) × (b.y < 131072) }
    ensures placed { Placed (pos b.x) (pos b.y) (toward_zero (vector_x vectors.now i) (unit chroma)) (toward_zero (vector_y vectors.now i) (unit chroma)) result.ox result.oy result.phases.px result.phases.py }
    ensures taps_in { TapsIn size.width size.height b.w b.h result }
{
    let vx = vector_over(chroma, vectors[2 * i]);
    let vy = vector_over(chroma, vectors[2 * i + 1]);
    taps_of(b.w, b.h, size, b.x as i32, b.y as i32, vx, vy)
}

// Partition i of a macroblock's luma.
// `PlanesSized` ties the planes to the grid, here and below: a struct of a plane and its reference would be one more for each of the three. That i is the number of a partition is no fact of a `Macroblock`.
fn compensate_partition(
    pic: &mut [u8],
    reference: &[u8],
    vectors: &[i32; 32],
    mb: Macroblock,
    i: usize,
)
    requires index { i < num_motion_vectors mb.call.mode }
    requires planes_sized { PlanesSized false mb.grid.cols mb.grid.rows pic reference }
    ensures { pic.new ≡ moved_once (unit false) mb.grid.cols mb.grid.rows reference.now mb.call vectors.now i pic.old }
{
    let b = block_of(mb, false, i);
    let size = Size {
        width: b.stride,
        height: 16 * mb.grid.rows,
    };
    let t = taps_in(vectors, b, size, false, i);
    let plane = Plane {
        samples: reference,
        size,
    };
    compensate_taps(pic, plane, b, t);
}

// All partitions of a macroblock's luma.
pub fn compensate_luma(pic: &mut [u8], reference: &[u8], vectors: &[i32; 32], mb: Macroblock)
    requires planes_sized { PlanesSized false mb.grid.cols mb.grid.rows pic reference }
    ensures { pic.new ≡ moved_up_to (num_motion_vectors mb.call.mode) (unit false) mb.grid.cols mb.grid.rows reference.now mb.call vectors.now pic.old }
{
    let n = num_motion_vectors(mb.call.mode);
    for i in 0..n {
        compensate_partition(pic, reference, vectors, mb, i);
    }
}

// Partition i of both chroma planes: they read the same taps. Luma has a form of its own, for the reason that compensation's tiles give.
fn compensate_pair(
    cb: &mut [u8],
    cr: &mut [u8],
    reference: Reference,
    vectors: &[i32; 32],
    mb: Macroblock,
    i: usize,
)
    requires index { i < num_motion_vectors mb.call.mode }
    requires planes_sized { PlanesSized true mb.grid.cols mb.grid.rows cb reference.cb × PlanesSized true mb.grid.cols mb.grid.rows cr reference.cr }
    ensures cb_after { cb.new ≡ moved_once (unit true) mb.grid.cols mb.grid.rows reference.entry.cb.now mb.call vectors.now i cb.old }
    ensures cr_after { cr.new ≡ moved_once (unit true) mb.grid.cols mb.grid.rows reference.entry.cr.now mb.call vectors.now i cr.old }
{
    let b = block_of(mb, true, i);
    let size = Size {
        width: b.stride,
        height: 8 * mb.grid.rows,
    };
    let t = taps_in(vectors, b, size, true, i);
    compensate_both(cb, cr, reference.cb, reference.cr, b, size, t);
}

// All partitions of both chroma planes.
pub fn compensate_chroma(
    cb: &mut [u8],
    cr: &mut [u8],
    reference: Reference,
    vectors: &[i32; 32],
    mb: Macroblock,
)
    requires planes_sized { PlanesSized true mb.grid.cols mb.grid.rows cb reference.cb × PlanesSized true mb.grid.cols mb.grid.rows cr reference.cr }
    ensures cb_after { cb.new ≡ moved_up_to (num_motion_vectors mb.call.mode) (unit true) mb.grid.cols mb.grid.rows reference.entry.cb.now mb.call vectors.now cb.old }
    ensures cr_after { cr.new ≡ moved_up_to (num_motion_vectors mb.call.mode) (unit true) mb.grid.cols mb.grid.rows reference.entry.cr.now mb.call vectors.now cr.old }
{
    let n = num_motion_vectors(mb.call.mode);
    for k in 0..n {
        compensate_pair(cb, cr, reference, vectors, mb, k);
    }
}
