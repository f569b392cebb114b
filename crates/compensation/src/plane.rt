// A plane that is read.
ghost use Rattle.std.specs.Prelude.{length};
ghost use Rattle.compensation.specs.InnerBlock.{Whole};

use picture::Size;

// The samples of a plane, all of them, row by row.
#[derive(Clone, Copy)]
pub struct Plane<'a> {
    pub samples: &'a [u8],
    pub size: Size,
    pub ghost whole: { Whole size.width size.height (length samples.now) },
}
