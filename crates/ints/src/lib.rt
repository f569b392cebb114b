#![tactic(auto)]
// Signed helpers. Each contract is an equation in ℤ, the numbers without bounds, by the definitions of specs/Z.antt.
ghost use Rattle.std.specs.Prelude.{◌≡◌, ◌+ℤ◌, ◌*ℤ◌};
ghost use Rattle.ints.specs.Z.{sat_z, clamp_z, median_z};
ghost use Rattle.ints.specs.InnerHeld.{held_z};

const I32_MIN: i64 = -2147483648;

const I32_MAX: i64 = 2147483647;

// The nearest i32.
pub fn sat_i32(v: i64) -> i32
    ensures { result ≡ sat_z v }
{
    clamp_i64(v, I32_MIN, I32_MAX) as i32
}

// The nearest i32, and whether the exact value left i32. Both, and no Option: the nearest one goes on to be used.
#[derive(Clone, Copy)]
pub struct Held {
    pub value: i32,
    pub over: bool,
}

pub fn hold(v: i64) -> Held
    ensures { result ≡ held_z v }
{
    Held {
        value: sat_i32(v),
        over: (v < I32_MIN) | (v > I32_MAX),
    }
}

pub fn sat_add(a: i32, b: i32) -> Held
    ensures { result ≡ held_z (a +ℤ b) }
{
    hold((a as i64) + (b as i64))
}

pub fn sat_mul(a: i32, b: i32) -> Held
    ensures { result ≡ held_z (a *ℤ b) }
{
    hold((a as i64) * (b as i64))
}

// Bounds that cross are held too, hi where lo ≤ v; the library's `clamp` asks that lo ≤ hi. There are two, since the contract speaks of ℤ, which a type parameter has not.
pub fn clamp_i32(v: i32, lo: i32, hi: i32) -> i32
    ensures { result ≡ clamp_z lo hi v }
{
    if v < lo {
        lo
    } else if v > hi {
        hi
    } else {
        v
    }
}

pub fn clamp_i64(v: i64, lo: i64, hi: i64) -> i64
    ensures { result ≡ clamp_z lo hi v }
{
    if v < lo {
        lo
    } else if hi < v {
        hi
    } else {
        v
    }
}

pub fn median3(a: i32, b: i32, c: i32) -> i32
    ensures { result ≡ median_z a b c }
{
    clamp_i32(c, a.min(b), a.max(b))
}
