#![tactic(auto)]
// The lists that the comparison programs read from standard input: their bytes, and the numbers in them, lowest byte first.
// tools/reference/README.md has their form.
ghost use Rattle.std.specs.Prelude.{◌≡◌, ◌+◌, ◌<◌, ◌≤◌, length, take, drop, IfSome, SomeIff};
ghost use Rattle.std.specs.Int.{w16, w32, w64, cast_signed, from_le_bytes};

use refusal::Refusal;

// The file descriptor of POSIX.
const STDIN_FILENO: i32 = 0;

// The number and the detail of a refusal.
#[derive(Clone, Copy, PartialEq)]
pub struct Told {
    pub number: u32,
    pub detail: i64,
}

impl Told {
    // No refusal has the number 0.
    pub fn of(number: u32, detail: i64) -> Option<Told>
        ensures { SomeIff result (0 < number) (record { number = number; detail = detail }) }
    {
        if number == 0 {
            None
        } else {
            Some(Told { number, detail })
        }
    }
}

impl From<Refusal> for Told {
    fn from(why: Refusal) -> Told {
        Told {
            number: refusal::number_of(why),
            detail: refusal::detail_of(why),
        }
    }
}

// The N bytes of b from place `at` on.
pub fn bytes_at<const N: usize>(b: &[u8], at: usize) -> [u8; N]
    requires { at + N ≤ length b.now }
    ensures { result ≡ take N (drop at b.now) }
{
    let mut bytes = [0u8; N];
    bytes.copy_from_slice(&b[at..at + N]);
    bytes
}

pub fn u16_at(b: &[u8], at: usize) -> u16
    requires { at + 2 ≤ length b.now }
    ensures { result ≡ from_le_bytes w16 (take 2 (drop at b.now)) }
{
    u16::from_le_bytes(bytes_at(b, at))
}

pub fn u32_at(b: &[u8], at: usize) -> u32
    requires { at + 4 ≤ length b.now }
    ensures { result ≡ from_le_bytes w32 (take 4 (drop at b.now)) }
{
    u32::from_le_bytes(bytes_at(b, at))
}

pub fn i32_at(b: &[u8], at: usize) -> i32
    requires { at + 4 ≤ length b.now }
    ensures { result ≡ cast_signed w32 (from_le_bytes w32 (take 4 (drop at b.now))) }
{
    i32::from_le_bytes(bytes_at(b, at))
}

pub fn u64_at(b: &[u8], at: usize) -> u64
    requires { at + 8 ≤ length b.now }
    ensures { result ≡ from_le_bytes w64 (take 8 (drop at b.now)) }
{
    u64::from_le_bytes(bytes_at(b, at))
}

// As many numbers of four bytes as there are whole ones, and room for.
// What they are is not promised: a loop over an adapter of `iter_mut`, as `zip`, has no name for the elements that it wrote, and no invariant can say it. The length stays by the type.
pub fn take_numbers(to: &mut [i32], bytes: &[u8]) {
    for (number, four) in to.iter_mut().zip(bytes.chunks_exact(4)) {
        *number = i32_at(four, 0);
    }
}

// The next n bytes of standard input, at the start of b, where they fit and all came.
pub fn read(b: &mut [u8], n: usize) -> Option<&mut [u8]>
    ensures { IfSome result (λ part. length part.now ≤ length b.entry.now) }
{
    let part = b.get_mut(..n)?;
    if io::read_full(STDIN_FILENO, part) == n {
        Some(part)
    } else {
        None
    }
}

// The number of records that follow the first. A contract would say no number: what standard input holds is outside it.
pub fn count() -> u32 {
    let mut head = [0u8; 32];
    read(&mut head, 32);
    u32_at(&head, 8)
}
