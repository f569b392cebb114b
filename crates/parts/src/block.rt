// The compensated blocks.
use crate::Plane;
use crate::head::Compensated;
use refusal::Refusal;

// Whether the block that `compensate` makes is the one answered. It takes the numbers one by one, as the C entry gives them.
pub fn agrees<F>(compensate: F, b: Compensated, plane: &Plane, answered: &[u8]) -> bool
where
    F: FnOnce(
        &mut [u8],
        &[u8],
        usize,
        usize,
        i32,
        i32,
        usize,
        usize,
        i32,
        i32,
    ) -> Result<(), Refusal>,
    requires { F.IsAlwaysCallable compensate }
{
    let mut out = [0u8; 256];
    let Some(out) = out.get_mut(..answered.len()) else {
        return false;
    };
    let Some(samples) = plane.samples.get(..plane.size) else {
        return false;
    };
    let done = compensate(
        out,
        samples,
        plane.width,
        plane.height,
        b.x,
        b.y,
        b.w,
        b.h,
        b.vx,
        b.vy,
    );
    done.is_ok() && *out == *answered
}
