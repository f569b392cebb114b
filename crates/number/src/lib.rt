#![tactic(auto)]
// Document 01's number form: a number is read from bytes and written to them.
ghost use Rattle.std.specs.Prelude.{◌≡◌, ◌+◌, ◌≤◌, length, drop};
ghost use Rattle.std.proofs.lemmas.List.Edits.{sets};
ghost use Rattle.number.specs.Number.{number, read_number};
ghost use Rattle.refusal.specs.Answered.{answered};
ghost use Rattle.number.specs.SignedNumber.{sent, received, signed_number, read_signed};

use refusal::Refusal;

// The number at a place, group by group.
fn read_groups(s: &[u8], at: usize) -> Result<(u32, usize), Refusal>
    ensures { result ≡ answered at (read_number (drop at s.now)) }
{
    let mut p = at;
    // the groups so far have this value, and the next one counts this unit
    let mut a: u64 = 0;
    let mut unit: u64 = 1;
    loop {
        if s.len() <= p {
            return Err(Refusal::NumberForm);
        }
        let b = s[p] as u64;
        if b < 128 {
            let v = a + b * unit;
            if 4294967296 <= v {
                return Err(Refusal::NumberForm);
            }
            if (at < p) & (b == 0) {
                return Err(Refusal::NumberForm);
            }
            return Ok((v as u32, p + 1));
        }
        // a sixth group would count 2^35
        if 268435456 <= unit {
            return Err(Refusal::NumberForm);
        }
        a = a + (b - 128) * unit;
        unit = 128 * unit;
        p += 1;
    }
}

// The number at a place, which may lie anywhere, also past the end. Most have one group.
pub fn read_number(s: &[u8], at: usize) -> Result<(u32, usize), Refusal>
    ensures { result ≡ answered at (read_number (drop at s.now)) }
{
    if at < s.len() {
        let b = s[at];
        if b < 128 {
            return Ok((b as u32, at + 1));
        }
    }
    read_groups(s, at)
}

// Writes v from a place on, and answers the place after it.
pub fn put_number(out: &mut [u8], at: usize, v: u32) -> usize
    requires { at + length (number v) ≤ length out.old }
    ensures { (result ≡ at + length (number v)) × (out.new ≡ sets out.old at (number v)) }
{
    let mut rest = v;
    let mut p = at;
    // what is left says whether a byte follows: no range counts them
    while 128 <= rest {
        out[p] = (rest % 128 + 128) as u8;
        rest = rest / 128;
        p += 1;
    }
    out[p] = rest as u8;
    p + 1
}

// A signed number as it is sent.
pub fn sent_of(v: i32) -> u32
    ensures { result ≡ sent v }
{
    if v < 0 {
        2 * ((-(v + 1)) as u32) + 1
    } else {
        2 * (v as u32)
    }
}

// The signed number that was sent as n.
pub fn received_of(n: u32) -> i32
    ensures { result ≡ received n }
{
    let half = (n / 2) as i32;
    if n % 2 == 1 { -half - 1 } else { half }
}

pub fn read_signed_number(s: &[u8], at: usize) -> Result<(i32, usize), Refusal>
    ensures { result ≡ answered at (read_signed (drop at s.now)) }
{
    let (n, next) = read_number(s, at)?;
    Ok((received_of(n), next))
}

pub fn put_signed_number(out: &mut [u8], at: usize, v: i32) -> usize
    requires { at + length (signed_number v) ≤ length out.old }
    ensures { (result ≡ at + length (signed_number v)) × (out.new ≡ sets out.old at (signed_number v)) }
{
    put_number(out, at, sent_of(v))
}
