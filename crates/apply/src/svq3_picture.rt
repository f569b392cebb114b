// The vectors and the marks of a macroblock.
ghost use Rattle.std.specs.Prelude.{◌≡◌, ℕ, ◌+◌, ◌*◌, ◌/◌, ◌%◌, ◌^◌, ◌<◌, ◌≤◌, length};
ghost use Rattle.picture.specs.Picture.{cell_count};
ghost use Rattle.picture.specs.InnerRows.{row};
ghost use Rattle.vectors.specs.Modes.{num_motion_vectors};
ghost use Rattle.picture.specs.InnerField.{lent_field};
ghost use Rattle.apply.specs.Apply.{stored_up_to};
ghost use Rattle.apply.specs.InnerCells.{owner_of, own_number};

use state::Macroblock;
use vectors::svq3_frame::mark_row;

// The partition of each cell of a macroblock, a hex digit each, by rows, the first the lowest.
fn owners(mode: u32) -> u64
    requires { mode ≤ 7 }
    ensures { (c d : ℕ) → c < 4 → d < 4 → result / 2 ^ (16 * d) / 2 ^ (4 * c) % 16 ≡ owner_of mode c d }
{
    match mode {
        2 => 0x1100_1100_1100_1100,
        3 => 0x1111_1111_0000_0000,
        4 => 0x3322_3322_1100_1100,
        5 => 0x7654_7654_3210_3210,
        6 => 0x7766_5544_3322_1100,
        7 => 0xfedc_ba98_7654_3210,
        _ => 0,
    }
}

// The vectors of four cells, from number `at` on: the digits of `four` say whose. By the number, since it picks the digit, and each turn writes two numbers.
fn store_row(mv: &mut [i32], vectors: &[i32; 32], at: usize, four: u64)
    requires { (at + 8 ≤ length mv.old) }
    ensures { mv.new ≡ row mv.old at (own_number vectors.now four) 8 }
{
    for c in 0..4 {
        let i = ((four >> (4 * c)) % 16) as usize;
        let vx = vectors[2 * i];
        let vy = vectors[2 * i + 1];
        mv[at + 2 * c] = vx;
        mv[at + 2 * c + 1] = vy;
    }
}

// The vectors of all partitions, marked 1, in each of their cells.
pub fn store_partitions(mv: &mut [i32], marks: &mut [u8], vectors: &[i32; 32], mb: Macroblock)
    requires some { 0 < mb.call.mode }
    requires mv_len { (length mv.old ≡ 2 * cell_count mb.grid.cols mb.grid.rows) × (length marks.old ≡ cell_count mb.grid.cols mb.grid.rows) }
    ensures mv_after { mv.new ≡ (stored_up_to (num_motion_vectors mb.call.mode) mb.call vectors.now (lent_field mb.grid.cols mb.grid.rows mv.old marks.old)).mv }
    ensures marks_after { marks.new ≡ (stored_up_to (num_motion_vectors mb.call.mode) mb.call vectors.now (lent_field mb.grid.cols mb.grid.rows mv.old marks.old)).marks }
{
    let stride = 4 * mb.grid.cols;
    let x = 4 * (mb.call.column as usize);
    let y = 4 * (mb.call.row as usize);
    let whose = owners(mb.call.mode);
    for r in 0..4 {
        let at = (y + r) * stride + x;
        store_row(mv, vectors, 2 * at, whose >> (16 * r));
        mark_row(marks, at, 4);
    }
}
