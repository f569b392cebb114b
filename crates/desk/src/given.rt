// What a C caller gives.
ghost use Rattle.std.specs.Prelude.{◌≡◌};
ghost use Rattle.desk.specs.Given.{frame_of};

use picture::Grid;
use state::{Flags, Frame};

// Flags: 1 half plus 2 third; delta-enable is off at 0. Four numbers, as C gives them: no one value is there to convert. Higher bits of flags are passed over; the printer's header, which has its own conversion, has none.
pub fn frame_of(cols: u64, rows: u64, flags: u32, delta: u32) -> Frame
    ensures { result ≡ frame_of cols rows flags delta }
{
    Frame {
        grid: Grid {
            cols: cols as usize,
            rows: rows as usize,
        },
        flags: Flags {
            halfpel: flags % 2 == 1,
            thirdpel: flags / 2 % 2 == 1,
            delta: delta != 0,
        },
    }
}
