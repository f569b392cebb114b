// Residuals added to samples. A residual is held in 16 bits, and the sixteen of a block come by value, so that they lie apart from
// the plane: the compiler then moves a row of samples at once. Behind a reference a heavy macroblock took 12 % more instructions.
ghost use Rattle.std.specs.Prelude.{◌≡◌, ◌<◌, ◌≤◌, ◌+◌, pos, ◌+ℤ◌, length};
ghost use Rattle.std.specs.Int.Signed.{mag};
ghost use Rattle.ints.specs.Z.{clip1_z};
ghost use Rattle.picture.specs.InnerRows.{row};
ghost use Rattle.transform.specs.Residual.{placed};
ghost use Rattle.transform.specs.Added.{added};
ghost use Rattle.transform.specs.InnerArrays.{Short, reconstructed_at};
ghost use Rattle.transform.specs.InnerFour.{SquareIn};

use crate::Square;

// A sample and its residual, held in 0 to 255.
fn reconstruct_sample(pred: u8, residual: i16) -> u8
    requires { mag residual < 4096 }
    ensures { result ≡ clip1_z (pos pred +ℤ residual) }
{
    (i16::from(pred) + residual).clamp(0, 255) as u8
}

// Four residuals from `from` on, added to the samples from `at` on. No `zip`: after one over `iter_mut` the proof knows no element of the
// slice.
fn add_row(plane: &mut [u8], at: usize, residual: &[i16; 16], from: usize)
    requires { (at + 4 ≤ length plane.old) × (from + 4 ≤ 16) × Short residual.now }
    ensures { plane.new ≡ row plane.old at (reconstructed_at plane.old at residual.now from) 4 }
{
    for (c, sample) in plane[at..at + 4].iter_mut().enumerate() {
        *sample = reconstruct_sample(*sample, residual[from + c]);
    }
}

// Sixteen residuals, row by row, added to the samples of a square of 4 × 4.
pub fn reconstruct_4x4(plane: &mut [u8], s: Square, residual: [i16; 16])
    requires { SquareIn s 4 (length plane.old) × Short residual }
    ensures { plane.new ≡ added plane.old s.stride s.x s.y (placed residual 0) }
{
    for j in 0..4 {
        add_row(plane, (s.y + j) * s.stride + s.x, &residual, 4 * j);
    }
}
