// Two signed codes, one after the other: both are found in the 32 bits there, where both are short.
ghost use Rattle.std.specs.Prelude.{◌≡◌, ◌+◌, ◌*◌, ◌/◌, ◌≤◌, ◌<◌, ◌^◌, length, drop};
ghost use Rattle.bits.specs.Bits.{bit_list};
ghost use Rattle.bits.specs.InnerWindow.{Shows};
ghost use Rattle.refusal.specs.Answered.{answered};
ghost use Rattle.bits.specs.InnerPair.{signed_pair};

use crate::Bits;
use crate::code_starts::code_start;
use crate::svq3_mv::{read_signed_code, signed_of};
use refusal::Refusal;

// The 32 bits from byte i on. The compiler makes one load of it.
fn four_at(bits: &[u8], i: usize) -> u32
    requires { i + 4 ≤ length bits.now }
    ensures { Shows (result * 2 ^ 32) 32 (drop (8 * i) (bit_list bits.now)) }
{
    u32::from_be_bytes([bits[i], bits[i + 1], bits[i + 2], bits[i + 3]])
}

// The 25 bits from a place on, the highest of the word.
fn word_here(bits: &[u8], at: usize) -> u32
    requires { at / 8 + 4 ≤ length bits.now }
    ensures { Shows (result * 2 ^ 32) 25 (drop at (bit_list bits.now)) }
{
    four_at(bits, at / 8) << (at % 8)
}

// One code, then the other.
fn read_apart(bits: Bits, at: usize) -> Result<((i32, i32), usize), Refusal>
    ensures { result ≡ answered at (signed_pair (drop at (bit_list bits.entry.bytes.now))) }
{
    let (y, p) = read_signed_code(bits, at)?;
    let (x, next) = read_signed_code(bits, p)?;
    Ok(((y, x), next))
}

pub fn read_signed_pair(bits: Bits, at: usize) -> Result<((i32, i32), usize), Refusal>
    ensures { result ≡ answered at (signed_pair (drop at (bit_list bits.entry.bytes.now))) }
{
    if bits.bytes.len() < at / 8 + 4 {
        return read_apart(bits, at);
    }
    let here = word_here(bits.bytes, at);
    let first = code_start(here >> 23);
    let Some(before) = first.before else {
        return read_apart(bits, at);
    };
    let n = before + 1;
    let second = code_start((here << n) >> 23);
    let Some(between) = second.before else {
        return read_apart(bits, at);
    };
    let m = between + 1;
    let y = signed_of(first.head - 1);
    let x = signed_of(second.head - 1);
    Ok(((y, x), at + (n + m) as usize))
}
