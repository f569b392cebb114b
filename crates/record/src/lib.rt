#![tactic(auto)]
// A macroblock's record: what was read of it, as it goes to the transcript and comes back.
ghost use Rattle.std.specs.Prelude.{◌≡◌};
ghost use Rattle.record.specs.Record.{place_head, with_motion, with_residual};

// The numbers of a record. Its vectors and its levels stand beside it, in arrays of 32 and 392 numbers.
#[derive(Clone, Copy)]
pub struct Head {
    pub column: u32,
    pub row: u32,
    pub mode: u32,
    // 0 full, 1 half, 2 third. The transcript's number and no enum: between its reader and its writer nothing looks at it.
    pub precision: u32,
    // how many components of its vectors had to be held in i32
    pub clipped: u32,
    pub pattern: u32,
    // the quantiser afterwards
    pub quantiser: u32,
}

// A head filled as far as its place and its mode.
pub fn place_head(column: u32, row: u32, mode: u32) -> Head
    ensures { result ≡ place_head column row mode }
{
    Head {
        column,
        row,
        mode,
        precision: 0,
        clipped: 0,
        pattern: 0,
        quantiser: 0,
    }
}

pub fn with_motion(head: Head, precision: u32, clipped: u32) -> Head
    ensures { result ≡ with_motion head precision clipped }
{
    Head {
        precision,
        clipped,
        ..head
    }
}

pub fn with_residual(head: Head, pattern: u32, quantiser: u32) -> Head
    ensures { result ≡ with_residual head pattern quantiser }
{
    Head {
        pattern,
        quantiser,
        ..head
    }
}
