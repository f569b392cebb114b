// The sample loops, row by row. The phase is chosen outside them, and every tap lies in the source: no branch and no clamp inside.
ghost use Rattle.std.specs.Prelude.{◌≡◌, ◌+◌, ◌*◌, ◌-◌, ◌<◌, ◌≤◌, length, get_or};
ghost use Rattle.picture.specs.InnerBlock.{BlockIn, block_painted};
ghost use Rattle.picture.specs.InnerRows.{row};
ghost use Rattle.compensation.specs.Formula.{formula};
ghost use Rattle.compensation.specs.InnerKernel.{weighed, raised, mixed_taps, mixed_row, mixed_block, MixFor, way, mixes, mix_code, four_block, extra};
ghost use Rattle.compensation.specs.InnerBlock.{Span};

use crate::mix::{Mix, Phases, Weights};
use picture::Block;
use picture::rows::store_row;

// With m = 1: an even a beside an odd b gets 1 more. Of two taps of which just one is odd, each raised by the other, the even one gets it:
// their sum is then even, and half of it is their mean, rounded up. With m = 0: a as it is.
fn raise(m: u8, a: u8, b: u8) -> u8
    requires { m ≤ 1 }
    ensures { result ≡ raised m a b }
{
    a | (b & m)
}

impl Weights {
    // The sum never passes 3,066.
    fn weigh(self, a: u8, b: u8, c: u8, d: u8) -> u8
        ensures { result ≡ weighed self.wa self.wb self.wc self.wd a b c d }
    {
        let sum = self.wa * (a as u16)
            + self.wb * (b as u16)
            + self.wc * (c as u16)
            + self.wd * (d as u16);
        ((sum + 6) / 12) as u8
    }

    pub fn sample(self, a: u8, b: u8, c: u8, d: u8) -> u8
        ensures { result ≡ mixed_taps self a b c d }
    {
        let m = self.means;
        self.weigh(
            raise(m, a, b),
            raise(m, b, a),
            raise(m, c, d),
            raise(m, d, c),
        )
    }
}

impl Mix {
    pub fn sample(self, a: u8, b: u8, c: u8, d: u8) -> u8
        ensures { result ≡ mixed_taps self.weights a b c d }
    {
        self.weights.sample(a, b, c, d)
    }
}

// The taps by their numbers: runs of each tap in a `zip` would be longer, and after one over `iter_mut` the proof knows no element of the slice.
fn mix_row(dst: &mut [u8], src: &[u8], to: usize, from: usize, n: usize, mix: Mix)
    requires { (to + n ≤ length dst.old) × (from + n + (mix.beside + mix.second) ≤ length src.now) }
    ensures { dst.new ≡ row dst.old to (mixed_row mix src.now from) n }
{
    for (c, sample) in dst[to..to + n].iter_mut().enumerate() {
        let i = from + c;
        let beside = src[i + mix.beside];
        let second = src[i + mix.second];
        let last = src[i + (mix.beside + mix.second)];
        *sample = mix.sample(src[i], beside, second, last);
    }
}

// The block whose taps start at `from` of `src`.
// `BlockIn` ties a block to the slice that is written, here and in `svq3_mc` and `tiles`: a struct of both would be taken apart wherever the slice is lent on, and the two chroma slices have one block.
// How far the taps reach is a clause for a like reason: it ties `src` and `from` to the block and the mix.
pub fn mix_block(dst: &mut [u8], src: &[u8], b: Block, from: usize, mix: Mix)
    requires { BlockIn b (length dst.old) × (from + b.h * mix.stride + b.w < length src.now) }
    ensures { dst.new ≡ block_painted b (mixed_block mix src.now from) dst.old }
{
    for r in 0..b.h {
        let to = (b.y + r) * b.stride + b.x;
        mix_row(dst, src, to, from + r * mix.stride, b.w, mix);
    }
}

// How far a phase goes: 0 not at all, 1 a third of the way, 2 half of it, 3 two thirds.
fn way_of(p: u32) -> u32
    requires { p < 6 }
    ensures { (result ≡ way p) × (result < 4) }
{
    (0x33_2110 >> (4 * p)) % 4
}

// The mixes of a way down, by the way across, the lowest first. A mix has four hexadecimal digits: the weights of the four taps, the first
// tap's the lowest; the highest has 8 more where the pairs stand for their means.
// A look-up, since phases are too many for a processor to foresee them.
fn mixes_of(down: u32) -> u64
    requires { down < 4 }
    ensures { result ≡ get_or mixes down 0 }
{
    match down {
        0 => 0x0084_0066_0048_000c,
        1 => 0x3243_a244_2334_0408,
        2 => 0xc422_3333_a244_0066,
        _ => 0x4332_c422_3423_0804,
    }
}

fn mix_code(p: Phases) -> u32
    ensures is { result ≡ mix_code p.px p.py }
    ensures four_digits { result < 65536 }
{
    let shift = 16 * way_of(p.px);
    ((mixes_of(way_of(p.py)) >> shift) % 65536) as u32
}

// The mix of two phases, for a source whose rows are `stride` samples long. Halfway down, a pair is a tap and the one below it; else it is two
// taps of a row.
pub fn mix_of(p: Phases, stride: usize) -> Mix
    ensures { MixFor p.px p.py stride result }
{
    let code = mix_code(p);
    let (beside, second) = if p.py == 3 { (stride, 1) } else { (1, stride) };
    Mix {
        stride,
        beside,
        second,
        weights: Weights {
            means: (code / 32768) as u8,
            wa: (code % 16) as u16,
            wb: (code / 16 % 16) as u16,
            wc: (code / 256 % 16) as u16,
            wd: (code / 4096 % 8) as u16,
        },
    }
}

// How many taps past its samples a block reads, each way.
pub fn extra_of(px: u32, py: u32) -> usize
    ensures { (result ≡ extra px py) × (result ≤ 1) }
{
    if px == 0 && py == 0 { 0 } else { 1 }
}

// Whole samples: rows that are copied. `Span` stands beside `BlockIn`, as in `svq3_mc`. The width is a number of its own, so that it can be a literal; not a const parameter, for widths of no partition share the loop.
fn copy_rows(dst: &mut [u8], src: &[u8], b: Block, w: usize, stride: usize, from: usize)
    requires w_value { w ≡ b.w }
    requires span { Span b.w b.h × BlockIn b (length dst.old) × (from + (b.h - 1) * stride + b.w ≤ length src.now) }
    ensures { dst.new ≡ block_painted b (four_block (formula 0 0) src.now stride from) dst.old }
{
    for r in 0..b.h {
        let to = (b.y + r) * b.stride + b.x;
        store_row(dst, to, src, from + r * stride, w);
    }
}

// The same, with the widths of partitions known to the compiler.
pub fn copy_by_width(dst: &mut [u8], src: &[u8], b: Block, stride: usize, from: usize)
    requires { Span b.w b.h × BlockIn b (length dst.old) × (from + (b.h - 1) * stride + b.w ≤ length src.now) }
    ensures { dst.new ≡ block_painted b (four_block (formula 0 0) src.now stride from) dst.old }
{
    match b.w {
        16 => copy_rows(dst, src, b, 16, stride, from),
        8 => copy_rows(dst, src, b, 8, stride, from),
        4 => copy_rows(dst, src, b, 4, stride, from),
        2 => copy_rows(dst, src, b, 2, stride, from),
        w => copy_rows(dst, src, b, w, stride, from),
    }
}
