// Blocks of a plane whose rows are `stride` samples long, one after another.
ghost use Rattle.std.specs.Prelude.{◌≡◌, ◌+◌, ◌≤◌, length, replicate};
ghost use Rattle.picture.specs.InnerBlock.{BlockIn};
ghost use Rattle.picture.specs.Picture.{copied};
ghost use Rattle.picture.specs.InnerRows.{row, run};

use crate::Block;

// n samples of `block` from `from` on, as the first of sixteen.
// Sample by sample, here and below: the compiler makes one move of a row of known length, or a `memcpy`. By `copy_from_slice` it is `memmove`,
// which a host without a C library would have to bring too.
fn take_row(block: &[u8], from: usize, n: usize) -> [u8; 16]
    requires { (n ≤ 16) × (from + n ≤ length block.now) }
    ensures { result ≡ row (replicate 16 0) 0 (run block.now from) n }
{
    let mut t = [0u8; 16];
    for c in 0..n {
        t[c] = block[from + c];
    }
    t
}

// n samples of `block` from `from` on, into `plane` from `at` on.
// All are read before one is written: a copy from slice to slice tests first whether the two overlap, and a skip then takes 1.9 times as many instructions.
pub fn store_row(plane: &mut [u8], at: usize, block: &[u8], from: usize, n: usize)
    requires { (n ≤ 16) × (at + n ≤ length plane.old) × (from + n ≤ length block.now) }
    ensures { plane.new ≡ row plane.old at (run block.now from) n }
{
    let t = take_row(block, from, n);
    for c in 0..n {
        plane[at + c] = t[c];
    }
}

// The block's samples, from `other` to the same places of `plane`.
pub fn copy_block(plane: &mut [u8], other: &[u8], b: Block)
    requires { (b.w ≤ 16) × BlockIn b (length plane.old) × BlockIn b (length other.now) }
    ensures { plane.new ≡ copied plane.old b.stride b.x b.y b.w b.h other.now }
{
    for r in 0..b.h {
        let at = (b.y + r) * b.stride + b.x;
        store_row(plane, at, other, at, b.w);
    }
}
