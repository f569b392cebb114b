// The signed code.
ghost use Rattle.std.specs.Prelude.{◌≡◌, ◌<◌, ◌^◌, ◌-◌, drop};
ghost use Rattle.bits.specs.Bits.{bit_list};
ghost use Rattle.bits.specs.Signed.{signed_of, signed_code};
ghost use Rattle.refusal.specs.Answered.{answered};

use crate::Bits;
use crate::svq3::read_universal_code;
use refusal::Refusal;

// The signed value of a code.
pub fn signed_of(k: u32) -> i32
    requires { k < 2 ^ 32 - 1 }
    ensures { result ≡ signed_of k }
{
    let magnitude = ((k + 1) / 2) as i32;
    if k % 2 == 1 { magnitude } else { -magnitude }
}

pub fn read_signed_code(bits: Bits, at: usize) -> Result<(i32, usize), Refusal>
    ensures { result ≡ answered at (signed_code (drop at (bit_list bits.entry.bytes.now))) }
{
    let (k, next) = read_universal_code(bits, at)?;
    Ok((signed_of(k), next))
}
