// The universal code.
ghost use Rattle.std.specs.Prelude.{◌≡◌, ◌+◌, ◌*◌, ◌≤◌, ◌<◌, ◌^◌, drop};
ghost use Rattle.bits.specs.Bits.{bit_list};
ghost use Rattle.bits.specs.Code.{code_from, code};
ghost use Rattle.refusal.specs.Answered.{answered};

use crate::Bits;
use crate::bitreader::{bit_at, nine_at};
use crate::code_starts::code_start;
use refusal::Refusal;

// Bit by bit from a marker on: `head` is a 1 followed by the data bits before it, and `spare` data bits may still come.
fn read_on(bits: Bits, at: usize, head: u32, spare: u32) -> Result<(u32, usize), Refusal>
    requires { ((head + 1) * 2 ^ spare ≤ 2 ^ 32) × (0 < head) }
    ensures { result ≡ answered at (code_from spare head (drop at (bit_list bits.entry.bytes.now))) }
{
    let n = bits.bytes.len();
    let mut p = at;
    // a 1 followed by the data bits read so far
    let mut m = head;
    let mut room = spare;
    loop {
        if n <= p / 8 {
            return Err(Refusal::Truncated);
        }
        if bit_at(bits.bytes, p) {
            let k = m - 1;
            let next = p + 1;
            return Ok((k, next));
        }
        if room == 0 {
            return Err(Refusal::BadBitWidth(32));
        }
        let d = p + 1;
        if n <= d / 8 {
            return Err(Refusal::Truncated);
        }
        if bit_at(bits.bytes, d) {
            m = 2 * m + 1;
        } else {
            m = 2 * m;
        }
        room -= 1;
        p = d + 1;
    }
}

// A code of at most nine bits is found in the nine bits at its place, a longer one is read from the ninth on.
pub fn read_universal_code(bits: Bits, at: usize) -> Result<(u32, usize), Refusal>
    ensures { result ≡ answered at (code (drop at (bit_list bits.entry.bytes.now))) }
{
    if bits.bytes.len() <= at / 8 + 1 {
        return read_on(bits, at, 1, 31);
    }
    let start = code_start(nine_at(bits.bytes, at));
    let head = start.head;
    let Some(before) = start.before else {
        return read_on(bits, at + 8, head / 2, 27);
    };
    Ok((head - 1, at + before as usize + 1))
}
