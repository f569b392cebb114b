// The start of a universal code: what its first nine bits say.
ghost use Rattle.std.specs.Prelude.{◌≡◌, ◌<◌, ℕ, Some, unwrap_or};
ghost use Rattle.bits.specs.InnerStarts.{Begins};

// Of nine bits, the first a marker.
#[derive(Clone, Copy)]
pub struct CodeStart {
    // the number of bits before the first marker 1; none where no marker is 1
    pub before: Option<u32>,
    // a 1 followed by the data bits among them; twice that where no marker is 1
    pub head: u32,
}

pub fn code_start(nine: u32) -> CodeStart
    requires { nine < 512 }
    ensures says { Begins nine (unwrap_or result.before 10) result.head }
    ensures below { (n : ℕ) → result.before ≡ Some n → n < 10 }
{
    // the markers from the top on, and a 1 behind them, which is at 10
    let found = u32::leading_zeros(((nine & 0x155) << 23) + 0x20_0000);
    // the four data bits side by side
    let apart = (nine & 0xaa) >> 1;
    let pairs = (apart | (apart >> 1)) & 0x33;
    let data = (pairs | (pairs >> 2)) & 0x0f;
    CodeStart {
        before: if found < 10 { Some(found) } else { None },
        head: ((16 + data) << (found / 2)) >> 4,
    }
}
