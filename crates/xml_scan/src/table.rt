// The table of classes by which runs of bytes are jumped over. It is made once, and lent where a loop looks it up: a constant array that
// a loop names is copied at each turn.
ghost use Rattle.std.specs.Prelude.{◌≡◌, ◌+◌, drop};
ghost use Rattle.text.specs.Lists.{span};
ghost use Rattle.xml_scan.specs.mirror.Classes.{above, Classed};

use xml_pieces::run::{BYTES, run_end};

// 2: a part of a name. 1: any other byte that stands in text for itself, whatever stands beside it. 0: every other byte.
const CLASSES: [u8; BYTES] = [
    0, 0, 0, 0, 0, 0, 0, 0, 0, 1, 1, 0, 0, 1, 0, 0, 0, 0, 0, 0, 0, 0, 0, 0, 0, 0, 0, 0, 0, 0, 0, 0,
    1, 1, 1, 1, 1, 1, 0, 1, 1, 1, 1, 1, 1, 2, 2, 1, 2, 2, 2, 2, 2, 2, 2, 2, 2, 2, 1, 1, 0, 1, 0, 1,
    1, 2, 2, 2, 2, 2, 2, 2, 2, 2, 2, 2, 2, 2, 2, 2, 2, 2, 2, 2, 2, 2, 2, 2, 2, 2, 2, 1, 1, 0, 1, 2,
    1, 2, 2, 2, 2, 2, 2, 2, 2, 2, 2, 2, 2, 2, 2, 2, 2, 2, 2, 2, 2, 2, 2, 2, 2, 2, 2, 1, 1, 1, 1, 1,
    0, 0, 0, 0, 0, 0, 0, 0, 0, 0, 0, 0, 0, 0, 0, 0, 0, 0, 0, 0, 0, 0, 0, 0, 0, 0, 0, 0, 0, 0, 0, 0,
    0, 0, 0, 0, 0, 0, 0, 0, 0, 0, 0, 0, 0, 0, 0, 0, 0, 0, 0, 0, 0, 0, 0, 0, 0, 0, 0, 0, 0, 0, 0, 0,
    0, 0, 0, 0, 0, 0, 0, 0, 0, 0, 0, 0, 0, 0, 0, 0, 0, 0, 0, 0, 0, 0, 0, 0, 0, 0, 0, 0, 0, 0, 0, 0,
    0, 0, 0, 0, 0, 0, 0, 0, 0, 0, 0, 0, 0, 0, 0, 0, 0, 0, 0, 0, 0, 0, 0, 0, 0, 0, 0, 0, 0, 0, 0, 0,
];

// The class of each byte.
#[derive(Drop)]
pub(crate) struct Classes {
    table: [u8; BYTES],
    ghost classed: { Classed table },
}

impl Classes {
    pub(crate) fn new() -> Self {
        Classes { table: CLASSES }
    }

    // Where a run of parts of names ends.
    pub(crate) fn name_end(&self, s: &[u8], at: usize) -> usize
        ensures { result ≡ at + span (above 1) (drop at s.now) }
    {
        run_end(s, at, &self.table, 1)
    }

    // Where a run of bytes ends that stand in text for themselves.
    pub(crate) fn plain_end(&self, s: &[u8], at: usize) -> usize
        ensures { result ≡ at + span (above 0) (drop at s.now) }
    {
        run_end(s, at, &self.table, 0)
    }
}
