#![tactic(auto)]
// Levels scaled, transformed and added to samples.
ghost use Rattle.std.specs.Prelude.{◌≡◌, ◌+◌, ◌*◌, ◌/◌, ◌%◌, ◌^◌, ◌<◌, ◌≤◌};

pub mod exact;
pub mod four;
pub mod svq3_dequant;
pub mod svq3_pred;
pub mod svq3_recon;

// A square of samples, from column x of row y on, in a plane whose rows are `stride` samples long.
#[derive(Clone, Copy)]
pub struct Square {
    pub stride: usize,
    pub x: usize,
    pub y: usize,
}

impl Square {
    // Block b of the four of a square of 8 × 8: the upper two, then the lower two.
    fn block(self, b: usize) -> Square
        requires { (b < 4) × (self.x + 8 ≤ 2 ^ 64) × (self.y + 8 ≤ 2 ^ 64) }
        ensures { result ≡ record { stride = self.stride; x = self.x + 4 * (b % 2); y = self.y + 4 * (b / 2) } }
    {
        Square {
            stride: self.stride,
            x: self.x + 4 * (b % 2),
            y: self.y + 4 * (b / 2),
        }
    }
}

// A quantiser: the place of an entry in its table.
#[derive(Clone, Copy)]
pub struct Quantiser {
    pub number: u32,
    pub ghost ranged: { number ≤ 31 },
}

// What a level is multiplied by: an entry of the quantiser's table.
#[derive(Clone, Copy)]
pub struct Scale {
    pub by: u32,
    ghost small: { by ≤ 141533 },
}
