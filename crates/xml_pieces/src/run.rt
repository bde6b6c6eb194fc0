// Runs of bytes of one class, by a table: a byte's class is looked up and not tested, which takes half the time.
ghost use Rattle.std.specs.Prelude.{◌≡◌, ◌+◌, drop};
ghost use Rattle.text.specs.Lists.{span};
ghost use Rattle.xml_pieces.specs.Kinds.{above};

// How many bytes there are.
pub const BYTES: usize = 256;

// Where a run of bytes ends whose class in the table is above a level.
// Kept: a loop by hand. As text's run_end with a closure the scan of a file took 3 to 4 in a hundred instructions more, as a `for` 8 to 16 more: the
// runs are names and words of few bytes.
pub fn run_end(s: &[u8], at: usize, classes: &[u8; BYTES], level: u8) -> usize
    ensures { result ≡ at + span (above classes.now level) (drop at s.now) }
{
    let mut i = at;
    while i < s.len() {
        if classes[usize::from(s[i])] <= level {
            return i;
        }
        i += 1;
    }
    i
}
