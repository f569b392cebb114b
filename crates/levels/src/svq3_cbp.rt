// The coded block pattern of an inter macroblock. What it means is specs/Pattern.antt.
ghost use Rattle.std.specs.Prelude.{◌≡◌, ◌<◌, drop};
ghost use Rattle.bits.specs.Bits.{bit_list};
ghost use Rattle.refusal.specs.Answered.{answered};
ghost use Rattle.levels.specs.InnerPattern.{pattern_entry};
ghost use Rattle.levels.specs.Pattern.{pattern, class_of, quadrant_coded};

use bits::Bits;
use bits::svq3::read_universal_code;
use refusal::Refusal;

const INTER_CBP_TABLE: [u8; 48] = [
    0, 16, 1, 2, 4, 8, 32, 3, 5, 10, 12, 15, 47, 7, 11, 13, 14, 6, 9, 31, 35, 37, 42, 44, 33, 34,
    36, 40, 39, 43, 45, 46, 17, 18, 20, 24, 19, 21, 26, 28, 23, 27, 29, 30, 22, 25, 38, 41,
];

// The table at a code.
fn inter_cbp(code: u32) -> Option<u8>
    ensures { result ≡ pattern_entry code }
{
    if code < 48 {
        Some(INTER_CBP_TABLE[code as usize])
    } else {
        None
    }
}

// A pattern, 0 to 47.
pub fn read_cbp_inter(bits: Bits, at: usize) -> Result<(u8, usize), Refusal>
    ensures { result ≡ answered at (pattern (drop at (bit_list bits.entry.bytes.now))) }
{
    let (code, next) = read_universal_code(bits, at)?;
    let cbp = inter_cbp(code).ok_or(Refusal::InvalidFrameCode(code))?;
    Ok((cbp, next))
}

// Whether luma quadrant 0 to 3, by rows, has levels. A quadrant is a number with the clause that it is below 4, here and where one is read,
// written or added: each of those counts the four by `for`, and a type would be opened at once for the quadrant's place.
pub fn luma_quadrant_coded(cbp: u8, quadrant: u32) -> bool
    requires { quadrant < 4 }
    ensures { result ≡ quadrant_coded cbp quadrant }
{
    ((cbp % 16) >> quadrant) % 2 == 1
}

// 0: no chroma levels; 1: chroma DC; 2: chroma DC and AC. A number, as the document counts them: it is asked by < and ==, and an enum would only be one more conversion.
pub fn chroma_class(cbp: u8) -> u8
    ensures { result ≡ class_of cbp }
{
    cbp / 16
}
