// A block of a plane, moved by a vector in sixths of a sample; the plane's edges repeat without end.
ghost use Rattle.std.specs.Prelude.{◌≡◌, ◌+◌, ◌/◌, ◌<◌, ◌≤◌, length};
ghost use Rattle.ints.specs.Z.{floor_z, mod_z};
ghost use Rattle.picture.specs.InnerBlock.{BlockIn, block_painted};
ghost use Rattle.compensation.specs.Sample.{block_sample};
ghost use Rattle.compensation.specs.InnerTaps.{Placed, TapsIn, lies_in, tapped};
ghost use Rattle.compensation.specs.InnerBlock.{Whole, Span};
ghost use Rattle.compensation.specs.Block.{block_answer, block_out, halved};

use crate::kernel::extra_of;
use crate::mix::Phases;
use crate::plane::Plane;
use crate::tiles::{interpolate, interpolate_pair};
use crate::window::{gather, origin};
use picture::{Block, Size};
use refusal::Refusal;
use state::sides_fit;

#[derive(Clone, Copy)]
pub struct MvComponentSplit {
    pub whole: i64,
    pub phase: u32,
    pub ghost sixths: { phase < 6 },
}

// Rounded down by one unsigned division: 6 · 357,913,942 is more than any vector is below 0.
// The plain form would be `div_euclid` and `rem_euclid`: the check does not find their proof alone (tried), and they branch on the sign, which cannot be foreseen. Blocks with drawn vectors took 8 % longer (86 ns, not 80).
pub fn split_mv_component(v: i32) -> MvComponentSplit
    ensures { (result.whole ≡ floor_z v 6) × (result.phase ≡ mod_z v 6) }
{
    let u = ((v as i64) + 2_147_483_652) as u64;
    MvComponentSplit {
        whole: ((u / 6) as i64) - 357_913_942,
        phase: (u % 6) as u32,
    }
}

// How a block reads its taps: the phases, where its first tap lies, and whether all lie inside the plane.
// `inside` is a field and no variant: phases and place are the same either way, and both chroma planes ask it once.
#[derive(Clone, Copy)]
pub struct Taps {
    pub phases: Phases,
    pub ox: i64,
    pub oy: i64,
    pub inside: bool,
}

// Whether the n places from `first` on lie in a line of `side`.
fn lies_in(first: i64, n: usize, side: usize) -> bool
    requires { (n ≤ 17) × (side ≤ 65536) }
    ensures { result ≡ lies_in first n side }
{
    (0 <= first) & (first <= (side as i64) - (n as i64))
}

// The taps of the w × h block at (x, y) of a plane with the vector (vx, vy). Place and vector come as numbers from the C entry, and are taken apart here: a struct of the four would live for a call.
pub fn taps_of(w: usize, h: usize, size: Size, x: i32, y: i32, vx: i32, vy: i32) -> Taps
    requires { Span w h × (0 < size.width) × (size.width ≤ 65536) × (0 < size.height) × (size.height ≤ 65536) }
    ensures placed { Placed x y vx vy result.ox result.oy result.phases.px result.phases.py }
    ensures taps_in { TapsIn size.width size.height w h result }
{
    let sx = split_mv_component(vx);
    let sy = split_mv_component(vy);
    let phases = Phases {
        px: sx.phase,
        py: sy.phase,
    };
    let ox = (x as i64) + sx.whole;
    let oy = (y as i64) + sy.whole;
    let e = extra_of(phases.px, phases.py);
    let inside = lies_in(ox, w + e, size.width) & lies_in(oy, h + e, size.height);
    Taps {
        phases,
        ox,
        oy,
        inside,
    }
}

// A block some of whose taps lie past an edge.
// `Span` is asked beside `BlockIn`, here and below: it is no fact of every `Block`.
fn across_edge(dst: &mut [u8], plane: Plane, b: Block, t: Taps)
    requires { Span b.w b.h × BlockIn b (length dst.old) }
    ensures { dst.new ≡ block_painted b (tapped plane.entry.size t plane.entry.samples.now) dst.old }
{
    let bx = origin(t.ox, plane.size.width);
    let by = origin(t.oy, plane.size.height);
    let mut window = [0u8; 578];
    let from = gather(&mut window, plane, bx, by, b.h + 1);
    interpolate(dst, &window, b, 34, from, t.phases);
}

// A block by its taps.
pub fn compensate_taps(dst: &mut [u8], plane: Plane, b: Block, t: Taps)
    requires { Span b.w b.h × BlockIn b (length dst.old) × TapsIn plane.size.width plane.size.height b.w b.h t }
    ensures { dst.new ≡ block_painted b (tapped plane.entry.size t plane.entry.samples.now) dst.old }
{
    if t.inside {
        let width = plane.size.width;
        let from = (t.oy as usize) * width + (t.ox as usize);
        interpolate(dst, plane.samples, b, width, from, t.phases);
    } else {
        across_edge(dst, plane, b, t);
    }
}

// The same block of two planes of the same size, each into the place that its source has it at. No `Plane`s: they have one size between them.
pub fn compensate_both(
    cb: &mut [u8],
    cr: &mut [u8],
    rcb: &[u8],
    rcr: &[u8],
    b: Block,
    size: Size,
    t: Taps,
)
    requires span { Span b.w b.h × BlockIn b (length cb.old) × BlockIn b (length cr.old) × (b.stride ≡ size.width) }
    requires whole { Whole size.width size.height (length rcb.now) × Whole size.width size.height (length rcr.now) × TapsIn size.width size.height b.w b.h t }
    ensures cb_after { cb.new ≡ block_painted b (tapped size t rcb.now) cb.old }
    ensures cr_after { cr.new ≡ block_painted b (tapped size t rcr.now) cr.old }
{
    if t.inside {
        let from = (t.oy as usize) * size.width + (t.ox as usize);
        interpolate_pair(cb, cr, rcb, rcr, b, from, t.phases);
    } else {
        across_edge(cb, Plane { samples: rcb, size }, b, t);
        across_edge(cr, Plane { samples: rcr, size }, b, t);
    }
}

// The block at (x, y) of `plane` with the vector (vx, vy), into the block b of `dst`.
pub fn compensate_into(dst: &mut [u8], plane: Plane, b: Block, x: i32, y: i32, vx: i32, vy: i32)
    requires { Span b.w b.h × BlockIn b (length dst.old) }
    ensures { dst.new ≡ block_painted b (block_sample plane.entry.samples.now plane.entry.size.width plane.entry.size.height x y vx vy) dst.old }
{
    let t = taps_of(b.w, b.h, plane.size, x, y, vx, vy);
    compensate_taps(dst, plane, b, t);
}

// The compensated block alone. Its numbers come one by one, as the C entry has them. `StateLength` for the plane, `CallRange` for the spans or the output's length; else `out` is the block.
pub fn motion_compensate_block(
    out: &mut [u8],
    plane: &[u8],
    width: usize,
    height: usize,
    x: i32,
    y: i32,
    w: usize,
    h: usize,
    vx: i32,
    vy: i32,
) -> Result<(), Refusal>
    ensures value { result ≡ block_answer (length plane.now) width height w h (length out.old) }
    ensures out_after { out.new ≡ block_out out.old plane.now width height x y w h vx vy }
{
    if !sides_fit(65536, width, height, plane.len()) {
        return Err(Refusal::StateLength);
    }
    if !sides_fit(16, w, h, out.len()) {
        return Err(Refusal::CallRange);
    }
    let whole = Block {
        stride: w,
        x: 0,
        y: 0,
        w,
        h,
    };
    let plane = Plane {
        samples: plane,
        size: Size { width, height },
    };
    compensate_into(out, plane, whole, x, y, vx, vy);
    Ok(())
}

// The chroma block of a luma block: place, spans and vector halved toward zero. Its numbers come one by one for the same reason.
pub fn motion_compensate_chroma_block(
    out: &mut [u8],
    plane: &[u8],
    width: usize,
    height: usize,
    x: i32,
    y: i32,
    w: usize,
    h: usize,
    vx: i32,
    vy: i32,
) -> Result<(), Refusal>
    ensures value { result ≡ block_answer (length plane.now) width height (w / 2) (h / 2) (length out.old) }
    ensures out_after { out.new ≡ block_out out.old plane.now width height (halved x) (halved y) (w / 2) (h / 2) (halved vx) (halved vy) }
{
    motion_compensate_block(
        out,
        plane,
        width,
        height,
        x / 2,
        y / 2,
        w / 2,
        h / 2,
        vx / 2,
        vy / 2,
    )
}
