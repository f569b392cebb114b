// Blocks of the usual widths, whose taps lie in the source: up to sixteen samples at once, as a tile of W columns and H rows.
// A tile's sizes are const parameters, its loops run over lanes, and all loads come before the stores: so the compiler unrolls the loops and mixes all lanes at once.
// Each size has one call of `mix_tiles` or `mix_tile_pairs`: so the compiler makes its functions part of their caller.
ghost use Rattle.std.specs.Prelude.{◌≡◌, ◌+◌, ◌*◌, ◌-◌, ◌%◌, ◌<◌, ◌≤◌, length, replicate};
ghost use Rattle.picture.specs.Painted.{Inside, painted};
ghost use Rattle.picture.specs.InnerBlock.{BlockIn, block_painted};
ghost use Rattle.picture.specs.InnerRows.{row};
ghost use Rattle.compensation.specs.Formula.{formula};
ghost use Rattle.compensation.specs.InnerKernel.{mixed_block, four_block, extra};
ghost use Rattle.compensation.specs.InnerLanes.{Tile, lane_at, tiled, taken_at, Holds, mixed_lane};
ghost use Rattle.compensation.specs.InnerBlock.{Span};

use crate::kernel::{copy_by_width, extra_of, mix_block, mix_of};
use crate::mix::{Mix, Phases};
use picture::Block;
use std::array;

// W × H samples of `src`, row after row, into the lanes from `at` on.
// `Tile` is a clause, here and below: W and H are const parameters, and no value is there whose type could keep it.
fn load_lanes<const W: usize, const H: usize>(
    t: &mut [u8; 16],
    at: usize,
    src: &[u8],
    from: usize,
    stride: usize,
)
    requires { Tile W H 16 × (at + W * H ≤ 16) × (from + H * stride + W ≤ length src.now + stride) }
    ensures { t.new ≡ row t.old at (lane_at src.now from stride W) (W * H) }
{
    for (k, lane) in t[at..at + W * H].iter_mut().enumerate() {
        *lane = src[from + (k / W * stride + k % W)];
    }
}

// The W × H lanes from `at` on, into `dst` at column x of row y.
fn store_lanes<const W: usize, const H: usize>(
    dst: &mut [u8],
    stride: usize,
    x: usize,
    y: usize,
    t: [u8; 16],
    at: usize,
)
    requires { Tile W H 16 × (at + W * H ≤ 16) × Inside stride x y W H (length dst.old) }
    ensures { dst.new ≡ painted stride x y W H (tiled t at W) dst.old }
{
    let to = y * stride + x;
    for (k, lane) in t[at..at + W * H].iter().enumerate() {
        dst[to + (k / W * stride + k % W)] = *lane;
    }
}

fn load_tile<const W: usize, const H: usize>(src: &[u8], from: usize, stride: usize) -> [u8; 16]
    requires { Tile W H 16 × (from + H * stride + W ≤ length src.now + stride) }
    ensures { Holds result 0 W H (taken_at src.now stride from) }
{
    let mut t = [0u8; 16];
    load_lanes::<W, H>(&mut t, 0, src, from, stride);
    t
}

// The same places of two planes: the second's lanes follow the first's.
// Two planes have functions of their own: the borrow checker does not cover an array of slices whose length is a const parameter (tried).
fn load_both<const W: usize, const H: usize>(
    cb: &[u8],
    cr: &[u8],
    from: usize,
    stride: usize,
) -> [u8; 16]
    requires { Tile W H 8 × (from + H * stride + W ≤ length cb.now + stride) × (from + H * stride + W ≤ length cr.now + stride) }
    ensures { Holds result 0 W H (taken_at cb.now stride from) × Holds result (W * H) W H (taken_at cr.now stride from) }
{
    let mut t = [0u8; 16];
    load_lanes::<W, H>(&mut t, 0, cb, from, stride);
    load_lanes::<W, H>(&mut t, W * H, cr, from, stride);
    t
}

// Sixteen samples by the four taps of a mix.
fn mix_lanes(
    first: [u8; 16],
    beside: [u8; 16],
    second: [u8; 16],
    last: [u8; 16],
    mix: Mix,
) -> [u8; 16]
    ensures { result ≡ row (replicate 16 0) 0 (mixed_lane mix first beside second last) 16 }
{
    array::from_fn(|k| mix.sample(first[k], beside[k], second[k], last[k]))
}

fn mix_tile<const W: usize, const H: usize>(src: &[u8], from: usize, mix: Mix) -> [u8; 16]
    requires { Tile W H 16 × (from + H * mix.stride + W < length src.now) }
    ensures { Holds result 0 W H (mixed_block mix src.now from) }
{
    let first = load_tile::<W, H>(src, from, mix.stride);
    let beside = load_tile::<W, H>(src, from + mix.beside, mix.stride);
    let second = load_tile::<W, H>(src, from + mix.second, mix.stride);
    let last = load_tile::<W, H>(src, from + (mix.beside + mix.second), mix.stride);
    mix_lanes(first, beside, second, last, mix)
}

// The block by tiles, one below the other.
fn mix_tiles<const W: usize, const H: usize>(
    dst: &mut [u8],
    src: &[u8],
    b: Block,
    from: usize,
    mix: Mix,
)
    requires tile { Tile W H 16 × (b.w ≡ W) × (b.h % H ≡ 0) }
    requires block_in { BlockIn b (length dst.old) × (from + b.h * mix.stride + b.w < length src.now) }
    ensures { dst.new ≡ block_painted b (mixed_block mix src.now from) dst.old }
{
    for i in 0..b.h / H {
        let r = i * H;
        let t = mix_tile::<W, H>(src, from + r * mix.stride, mix);
        store_lanes::<W, H>(dst, b.stride, b.x, b.y + r, t, 0);
    }
}

// A tile of two planes: the second's lanes follow the first's.
fn mix_tile_pair<const W: usize, const H: usize>(
    rcb: &[u8],
    rcr: &[u8],
    from: usize,
    mix: Mix,
) -> [u8; 16]
    requires { Tile W H 8 × (from + H * mix.stride + W < length rcb.now) × (from + H * mix.stride + W < length rcr.now) }
    ensures { Holds result 0 W H (mixed_block mix rcb.now from) × Holds result (W * H) W H (mixed_block mix rcr.now from) }
{
    let first = load_both::<W, H>(rcb, rcr, from, mix.stride);
    let beside = load_both::<W, H>(rcb, rcr, from + mix.beside, mix.stride);
    let second = load_both::<W, H>(rcb, rcr, from + mix.second, mix.stride);
    let last = load_both::<W, H>(rcb, rcr, from + (mix.beside + mix.second), mix.stride);
    mix_lanes(first, beside, second, last, mix)
}

// The same block of two planes by tiles, one below the other, each half of them one plane's.
fn mix_tile_pairs<const W: usize, const H: usize>(
    cb: &mut [u8],
    cr: &mut [u8],
    rcb: &[u8],
    rcr: &[u8],
    b: Block,
    from: usize,
    mix: Mix,
)
    requires tile { Tile W H 8 × (b.w ≡ W) × (b.h % H ≡ 0) }
    requires block_in { BlockIn b (length cb.old) × BlockIn b (length cr.old) }
    requires taps { (from + b.h * mix.stride + b.w < length rcb.now) × (from + b.h * mix.stride + b.w < length rcr.now) }
    ensures cb_after { cb.new ≡ block_painted b (mixed_block mix rcb.now from) cb.old }
    ensures cr_after { cr.new ≡ block_painted b (mixed_block mix rcr.now from) cr.old }
{
    for i in 0..b.h / H {
        let r = i * H;
        let t = mix_tile_pair::<W, H>(rcb, rcr, from + r * mix.stride, mix);
        store_lanes::<W, H>(cb, b.stride, b.x, b.y + r, t, 0);
        store_lanes::<W, H>(cr, b.stride, b.x, b.y + r, t, W * H);
    }
}

// A block by tiles, where its width and height allow it: as `mix_block` answers it.
fn mix_one(dst: &mut [u8], src: &[u8], b: Block, from: usize, mix: Mix)
    requires { BlockIn b (length dst.old) × (from + b.h * mix.stride + b.w < length src.now) }
    ensures { dst.new ≡ block_painted b (mixed_block mix src.now from) dst.old }
{
    if (b.w == 4) & (b.h % 4 == 0) {
        mix_tiles::<4, 4>(dst, src, b, from, mix);
    } else if (b.w == 8) & (b.h % 2 == 0) {
        mix_tiles::<8, 2>(dst, src, b, from, mix);
    } else if b.w == 16 {
        mix_tiles::<16, 1>(dst, src, b, from, mix);
    } else {
        mix_block(dst, src, b, from, mix);
    }
}

// The same block of two planes.
fn mix_pair(cb: &mut [u8], cr: &mut [u8], rcb: &[u8], rcr: &[u8], b: Block, from: usize, mix: Mix)
    requires block_in { BlockIn b (length cb.old) × BlockIn b (length cr.old) }
    requires taps { (from + b.h * mix.stride + b.w < length rcb.now) × (from + b.h * mix.stride + b.w < length rcr.now) }
    ensures cb_after { cb.new ≡ block_painted b (mixed_block mix rcb.now from) cb.old }
    ensures cr_after { cr.new ≡ block_painted b (mixed_block mix rcr.now from) cr.old }
{
    if (b.w == 2) & (b.h == 2) {
        mix_tile_pairs::<2, 2>(cb, cr, rcb, rcr, b, from, mix);
    } else if (b.w == 2) & (b.h == 4) {
        mix_tile_pairs::<2, 4>(cb, cr, rcb, rcr, b, from, mix);
    } else if (b.w == 4) & (b.h % 2 == 0) {
        mix_tile_pairs::<4, 2>(cb, cr, rcb, rcr, b, from, mix);
    } else if b.w == 8 {
        mix_tile_pairs::<8, 1>(cb, cr, rcb, rcr, b, from, mix);
    } else {
        mix_block(cb, rcb, b, from, mix);
        mix_block(cr, rcr, b, from, mix);
    }
}

// The block whose taps start at `from` of `src`, at the phases p.
// `src`, `stride` and `from` are no struct: how far the taps reach depends on the block and the phases, so such a struct would have no fact to keep.
pub fn interpolate(dst: &mut [u8], src: &[u8], b: Block, stride: usize, from: usize, p: Phases)
    requires { Span b.w b.h × BlockIn b (length dst.old) × (from + (b.h - 1 + extra p.px p.py) * stride + b.w + extra p.px p.py ≤ length src.now) }
    ensures { dst.new ≡ block_painted b (four_block (formula p.px p.py) src.now stride from) dst.old }
{
    if extra_of(p.px, p.py) == 0 {
        copy_by_width(dst, src, b, stride, from);
    } else {
        let mix = mix_of(p, stride);
        mix_one(dst, src, b, from, mix);
    }
}

// The same block of two planes, each at the same place of its source.
pub fn interpolate_pair(
    cb: &mut [u8],
    cr: &mut [u8],
    rcb: &[u8],
    rcr: &[u8],
    b: Block,
    from: usize,
    p: Phases,
)
    requires span { Span b.w b.h × BlockIn b (length cb.old) × BlockIn b (length cr.old) }
    requires taps { (from + (b.h - 1 + extra p.px p.py) * b.stride + b.w + extra p.px p.py ≤ length rcb.now) × (from + (b.h - 1 + extra p.px p.py) * b.stride + b.w + extra p.px p.py ≤ length rcr.now) }
    ensures cb_after { cb.new ≡ block_painted b (four_block (formula p.px p.py) rcb.now b.stride from) cb.old }
    ensures cr_after { cr.new ≡ block_painted b (four_block (formula p.px p.py) rcr.now b.stride from) cr.old }
{
    if extra_of(p.px, p.py) == 0 {
        copy_by_width(cb, rcb, b, b.stride, from);
        copy_by_width(cr, rcr, b, b.stride, from);
    } else {
        let mix = mix_of(p, b.stride);
        mix_pair(cb, cr, rcb, rcr, b, from, mix);
    }
}
