// Scan positions and raster places.
ghost use Rattle.std.specs.Prelude.{◌≡◌, ◌<◌, get_or};
ghost use Rattle.levels.specs.Book.{positions};
ghost use Rattle.levels.specs.Scan.{scan};

use crate::digits::digit;
use crate::svq3_coeff::ResidualBook;

// By position, a digit each.
const NORMAL_ZIGZAG_4X4_SCAN: u64 = 0xfeb7_adc9_6325_8410;

const FULL_4X4_LEN: u32 = 16;

const CHROMA_DC_2X2_LEN: u32 = 4;

// The number of positions of a list.
pub fn positions_of(book: ResidualBook) -> u32
    ensures { result ≡ positions book }
{
    match book {
        ResidualBook::NormalScan => FULL_4X4_LEN,
        ResidualBook::ChromaDc => CHROMA_DC_2X2_LEN,
    }
}

// The raster place of a position. A chroma DC position is its quadrant by rows.
pub fn place_of(book: ResidualBook, position: u32) -> usize
    requires { position < positions book }
    ensures { result ≡ get_or (scan book) position 0 }
{
    match book {
        ResidualBook::NormalScan => digit(NORMAL_ZIGZAG_4X4_SCAN, position) as usize,
        ResidualBook::ChromaDc => position as usize,
    }
}
