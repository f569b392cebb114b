#![tactic(auto)]
// What a record does to the planes, the vectors and the marks.
ghost use Rattle.std.specs.Prelude.{◌≡◌, ◌<◌, ◌≤◌, length};
ghost use Rattle.picture.specs.InnerPicture.{Within};
ghost use Rattle.record.specs.InnerRecord.{record_of};
ghost use Rattle.record.specs.Range.{RecordRange};

pub mod applied;
pub mod svq3_frame;
pub mod svq3_picture;
pub mod svq3_recon;

use picture::Grid;
use record::Head;

// A record that is no skip, in range for a picture of that grid.
#[derive(Clone, Copy)]
pub struct Coded<'a> {
    pub grid: Grid,
    pub head: Head,
    pub vectors: &'a [i32; 32],
    pub levels: &'a [i32; 392],
    pub ghost wide: { grid.cols ≤ 4096 },
    pub ghost high: { grid.rows ≤ 4096 },
    pub ghost range: { RecordRange grid.cols grid.rows (record_of head vectors.now levels.now) },
    pub ghost some: { 0 < head.mode },
}

// The levels of a macroblock, and what its head says of them.
#[derive(Clone, Copy)]
pub struct Residual<'a> {
    pub grid: Grid,
    pub head: Head,
    pub levels: &'a [i32; 392],
    pub ghost within: { Within grid.cols grid.rows head.column head.row },
    pub ghost pattern: { head.pattern ≤ 47 },
    pub ghost quantiser: { head.quantiser ≤ 31 },
    pub ghost count: { length levels.now ≡ 392 },
}
