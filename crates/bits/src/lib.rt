#![tactic(auto)]
// Bits and the codes made of them. A reader takes the bytes and a bit place by value and answers the value and the next place.
// Not one struct of the two: a place is also what a caller has, keeps at a refusal, and goes back to.
ghost use Rattle.std.specs.Prelude.{◌<◌, ◌^◌, length};

pub mod bitreader;
pub mod code_starts;
pub mod pair;
pub mod svq3;
pub mod svq3_mv;
pub mod window;

// Bytes whose bits are read.
#[derive(Clone, Copy)]
pub struct Bits<'a> {
    pub bytes: &'a [u8],
    // so that each bit place is a number of 64 bits
    pub ghost counted: { length bytes.now < 2 ^ 61 },
}
