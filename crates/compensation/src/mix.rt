// How samples are mixed from taps.
ghost use Rattle.std.specs.Prelude.{◌≡◌, ◌+◌, ◌<◌, ◌≤◌};

// How far the samples of a block lie past whole ones, across and down, in sixths.
#[derive(Clone, Copy)]
pub struct Phases {
    pub px: u32,
    pub py: u32,
    pub ghost across: { px < 6 },
    pub ghost down: { py < 6 },
}

// How two pairs of taps are weighed, by twelfths.
// With `means` 1 and not 0, the taps of a pair have one weight and stand for their mean.
// A number, not a `bool`: `raise` masks a tap with it, and with a `bool` would be an `if` of two arms, no plainer. The compiler makes two loops by that, and phases cannot be foreseen: 16 × 16 samples that are means took 7.8 % more instructions.
#[derive(Clone, Copy)]
pub struct Weights {
    pub means: u8,
    pub wa: u16,
    pub wb: u16,
    pub wc: u16,
    pub wd: u16,
    pub ghost flag: { means ≤ 1 },
    pub ghost twelfths: { wa + wb + wc + wd ≡ 12 },
}

// How a sample is mixed, whatever the phases: four taps of a source whose rows are `stride` samples long, and their weights.
// The taps are the corners of a square, in two pairs: the sample's first tap with the one `beside` places on, and the two that lie `second` places on from these.
#[derive(Clone, Copy)]
pub struct Mix {
    pub stride: usize,
    pub beside: usize,
    pub second: usize,
    pub weights: Weights,
    pub ghost square: { beside + second ≡ stride + 1 },
}
