// What is read of a macroblock, into its record.
ghost use Rattle.std.specs.Prelude.{◌≡◌, ◌+◌, ◌*◌, ◌≤◌, ◌<◌, ◌^◌, length, drop};
ghost use Rattle.refusal.specs.Answered.{answered};
ghost use Rattle.bits.specs.Bits.{bit_list};
ghost use Rattle.picture.specs.Picture.{cell_count};
ghost use Rattle.picture.specs.InnerField.{lent_field};
ghost use Rattle.vectors.specs.Modes.{num_motion_vectors};
ghost use Rattle.record.specs.Record.{no_vectors};
ghost use Rattle.levels.specs.Items.{no_levels};
ghost use Rattle.reading.specs.Read.{Moving, moved, read_vectors, read_quantiser, at_first, read_residual, read_coded};
ghost use Rattle.reading.specs.InnerAnswers.{lent_context, Holds, Stepping, Vectoring, Reading};

use bits::Bits;
use bits::pair::read_signed_pair;
use bits::svq3_mv::read_signed_code;
use levels::items::read_items;
use levels::svq3_cbp::read_cbp_inter;
use picture::Cells;
use record::Head;
use refusal::Refusal;
use state::{Cursor, Flags, Macroblock};
use vectors::svq3_frame::{Units, Vector, move_component};
use vectors::svq3_mb::{
    Partition, Svq3MvPrecision, num_motion_vectors, precision_number,
    read_inter_mv_precision_p_frame,
};
use vectors::window::Neighbours;

// What the partitions of a macroblock have in common: the macroblock and the precision of its vectors.
#[derive(Clone, Copy)]
struct Motion {
    mb: Macroblock,
    precision: Svq3MvPrecision,
}

// Partition i moved by its difference (dx, dy) and stored, so that the next one's prediction sees it. Answers how many components were clipped so far.
fn move_partition(
    vectors: &mut [i32; 32],
    near: &mut Neighbours,
    motion: Motion,
    i: usize,
    clipped: u32,
    dx: Units,
    dy: Units,
) -> u32
    requires index { (i < num_motion_vectors motion.mb.call.mode) × (clipped ≤ 30) }
    requires holds { (m : Moving) × Holds m motion clipped vectors.old near.old }
    ensures { (m : Moving) → Holds m motion clipped vectors.old near.old → Holds (moved motion.mb.call motion.precision i m dy.0 dx.0) motion result vectors.new near.new }
{
    let call = motion.mb.call;
    let part = Partition::of_mode(call.mode, i);
    let from = near.predict_mv(
        motion.mb.grid,
        call.column as usize,
        call.row as usize,
        part,
    );
    let mx = move_component(from.x, motion.precision, dx);
    let my = move_component(from.y, motion.precision, dy);
    let v = Vector {
        x: mx.value,
        y: my.value,
    };
    near.store_partition(part, v);
    vectors[2 * i] = v.x.0;
    vectors[2 * i + 1] = v.y.0;
    clipped + u32::from(mx.clipped) + u32::from(my.clipped)
}

// Partition i: its difference read, the vertical one first, and the partition moved by it.
fn read_partition(
    vectors: &mut [i32; 32],
    near: &mut Neighbours,
    bits: Bits,
    at: usize,
    motion: Motion,
    i: usize,
    clipped: u32,
) -> Result<(u32, usize), Refusal>
    requires index { (i < num_motion_vectors motion.mb.call.mode) × (clipped ≤ 30) }
    requires holds { (m : Moving) × Holds m motion clipped vectors.old near.old }
    ensures { (m : Moving) → Holds m motion clipped vectors.old near.old → Stepping motion at (read_vectors motion.mb.call motion.precision 1 i m (drop at (bit_list bits.entry.bytes.now))) result vectors.new near.new }
{
    let ((dy, dx), next) = read_signed_pair(bits, at)?;
    let so_far = move_partition(vectors, near, motion, i, clipped, Units(dx), Units(dy));
    Ok((so_far, next))
}

// The vectors of all partitions, on a copy of the cells that they see: the lent vectors and marks stay as they are.
fn read_vectors(
    vectors: &mut [i32; 32],
    cells: Cells,
    bits: Bits,
    at: usize,
    motion: Motion,
) -> Result<(u32, usize), Refusal>
    requires cells_all { (cells.grid ≡ motion.mb.grid) × (length cells.marks.now ≡ cell_count cells.grid.cols cells.grid.rows) }
    requires none { vectors.old ≡ no_vectors }
    ensures { Vectoring at (read_vectors motion.mb.call motion.precision (num_motion_vectors motion.mb.call.mode) 0 (at_first (lent_field cells.entry.grid.cols cells.entry.grid.rows cells.entry.mv.now cells.entry.marks.now)) (drop at (bit_list bits.entry.bytes.now))) result vectors.new }
{
    let call = motion.mb.call;
    let mut near = Neighbours::new();
    near.load(cells, call.column as usize, call.row as usize);
    let n = num_motion_vectors(call.mode);
    let mut p = at;
    let mut clipped = 0;
    for i in 0..n {
        (clipped, p) = read_partition(vectors, &mut near, bits, p, motion, i, clipped)?;
    }
    Ok((clipped, p))
}

// A delta is read only if the pattern is not 0 and delta-enable is on. A quantiser is a number with the clause that it is at most 31, here and below: a `Cursor` holds whatever its caller gave, and the sum is made of the number.
fn read_quantiser(
    bits: Bits,
    at: usize,
    quantiser: u32,
    pattern: u8,
    delta: bool,
) -> Result<(u32, usize), Refusal>
    requires { quantiser ≤ 31 }
    ensures { result ≡ answered at (read_quantiser delta quantiser pattern (drop at (bit_list bits.entry.bytes.now))) }
{
    if (pattern != 0) & delta {
        let (d, next) = read_signed_code(bits, at)?;
        let q = (quantiser as i64) + (d as i64);
        if (q >= 0) & (q < 32) {
            Ok((q as u32, next))
        } else {
            Err(Refusal::InvalidQuantiser(q))
        }
    } else {
        Ok((quantiser, at))
    }
}

// Pattern, quantiser, levels.
fn read_residual(
    levels: &mut [i32; 392],
    bits: Bits,
    at: usize,
    motion: Motion,
    clipped: u32,
    delta: bool,
    quantiser: u32,
) -> Result<(Head, usize), Refusal>
    requires { (levels.old ≡ no_levels) × (quantiser ≤ 31) }
    ensures { (m : Moving) → clipped ≡ m.clipped → Reading at (read_residual delta quantiser motion.mb.call motion.precision m (drop at (bit_list bits.entry.bytes.now))) result m.vectors levels.new }
{
    let (pattern, p) = read_cbp_inter(bits, at)?;
    let (q, b) = read_quantiser(bits, p, quantiser, pattern, delta)?;
    let next = read_items(levels, bits, b, pattern)?;
    let call = motion.mb.call;
    let head = Head {
        column: call.column,
        row: call.row,
        mode: call.mode,
        precision: precision_number(motion.precision),
        clipped,
        pattern: pattern as u32,
        quantiser: q,
    };
    Ok((head, next))
}

// A macroblock that is no skip, read from the bits: precision, vectors, and what follows. It answers the numbers of its record; its vectors and levels go into the two arrays.
// After a refusal the arrays hold what was read before it.
pub fn read_coded(
    vectors: &mut [i32; 32],
    levels: &mut [i32; 392],
    cells: Cells,
    bits: Bits,
    mb: Macroblock,
    flags: Flags,
    cursor: Cursor,
) -> Result<(Head, usize), Refusal>
    requires cells_all { (cells.grid ≡ mb.grid) × (length cells.marks.now ≡ cell_count cells.grid.cols cells.grid.rows) }
    requires none { (vectors.old ≡ no_vectors) × (levels.old ≡ no_levels) }
    requires quantiser { cursor.quantiser ≤ 31 }
    ensures { Reading cursor.place (read_coded (lent_context cells.entry.grid.cols cells.entry.grid.rows cells.entry.mv.now cells.entry.marks.now flags cursor.quantiser) mb.call (drop cursor.place (bit_list bits.entry.bytes.now))) result vectors.new levels.new }
{
    let (precision, p) = read_inter_mv_precision_p_frame(
        bits,
        cursor.place,
        flags.thirdpel,
        flags.halfpel,
    )?;
    let motion = Motion { mb, precision };
    let (clipped, q) = read_vectors(vectors, cells, bits, p, motion)?;
    read_residual(
        levels,
        bits,
        q,
        motion,
        clipped,
        flags.delta,
        cursor.quantiser,
    )
}
