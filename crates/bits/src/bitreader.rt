// The bits of a slice of bytes.
ghost use Rattle.std.specs.Prelude.{◌≡◌, false, ◌∷◌, ◌++◌, ◌+◌, ◌<◌, ◌/◌, length, get_or, drop};
ghost use Rattle.bits.specs.Bits.{odd, byte_bits, bit_list};

// The bit at a place, highest first in each byte.
pub fn bit_at(bits: &[u8], at: usize) -> bool
    requires { at / 8 < length bits.now }
    ensures { result ≡ get_or (bit_list bits.now) at false }
{
    let i = at / 8;
    let shift = 7 - at % 8;
    (bits[i] >> shift) % 2 == 1
}

// The nine bits from a place on, as a number.
pub fn nine_at(bits: &[u8], at: usize) -> u32
    requires { at / 8 + 1 < length bits.now }
    ensures { (result < 512) × (drop at (bit_list bits.now) ≡ byte_bits (result / 2) ++ drop (at + 8) (bit_list bits.now)) × (drop (at + 8) (bit_list bits.now) ≡ odd result ∷ drop (at + 9) (bit_list bits.now)) }
{
    let i = at / 8;
    let two = u16::from_be_bytes([bits[i], bits[i + 1]]) as u32;
    ((two << (at % 8)) >> 7) % 512
}
