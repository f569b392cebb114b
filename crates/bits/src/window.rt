// The bits from a place on, held in a word: a short code is found there with no look at the bytes.
ghost use Rattle.std.specs.Prelude.{◌≡◌, Bool, List, ◌+◌, ◌*◌, ◌≤◌, ◌<◌, length, drop};
ghost use Rattle.bits.specs.Bits.{bit_list};
ghost use Rattle.bits.specs.InnerWindow.{Shows};

// The `known` highest bits of the word are the bits from a place on.
#[derive(Clone, Copy)]
pub struct Window {
    pub word: u64,
    pub known: u32,
}

// The 64 bits from byte i on. The compiler makes one load of it.
fn word_at(bits: &[u8], i: usize) -> u64
    requires { i + 8 ≤ length bits.now }
    ensures { Shows result 64 (drop (8 * i) (bit_list bits.now)) }
{
    u64::from_be_bytes([
        bits[i],
        bits[i + 1],
        bits[i + 2],
        bits[i + 3],
        bits[i + 4],
        bits[i + 5],
        bits[i + 6],
        bits[i + 7],
    ])
}

// The window of the bits at a place, empty where no eight bytes are left.
pub fn window_at(bits: &[u8], at: usize) -> Window
    ensures { Shows result.word result.known (drop at (bit_list bits.now)) }
{
    let i = at / 8;
    if i + 8 <= bits.len() {
        let k = (at % 8) as u32;
        return Window {
            word: word_at(bits, i) << k,
            known: 64 - k,
        };
    }
    Window { word: 0, known: 0 }
}

// The window without its first n bits.
pub fn pass(window: Window, n: u32) -> Window
    requires { (n ≤ window.known) × (n < 64) }
    ensures { (s : List Bool) → Shows window.word window.known s → Shows result.word result.known (drop n s) }
{
    Window {
        word: window.word << n,
        known: window.known - n,
    }
}
