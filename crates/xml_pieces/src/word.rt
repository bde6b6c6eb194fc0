// Given bytes: the rest of the declaration, of an entity, the name in an end tag.
ghost use Rattle.std.specs.Prelude.{drop};
ghost use Rattle.xml_pieces.specs.Over.{Over};
ghost use Rattle.xml_pieces.specs.Kinds.{IsWord};

use crate::Stopped;

// Over the bytes of w, which are to stand at the place; it stops at the first that differs.
pub fn word(s: &[u8], at: usize, w: &[u8]) -> Result<usize, Stopped>
    ensures { Over (IsWord w.now) (drop at s.now) at result }
{
    for k in 0..w.len() {
        let i = at + k;
        if s.len() <= i {
            return Err(Stopped { at: i });
        }
        if s[i] != w[k] {
            return Err(Stopped { at: i });
        }
    }
    Ok(at + w.len())
}
