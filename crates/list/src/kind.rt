// Groups and leaves, by the number of a row's kind.
ghost use Rattle.std.specs.Prelude.{◌≡◌};
ghost use Rattle.list.specs.tables.Numbers.{is_group_in};

use crate::table::{DTM, REF};

// Whether a kind is a group's or a choice's: what is no leaf's number is.
// Kept: kinds are numbers, since they are cells of the constant tables (document 01), and any number there is a kind.
pub fn is_group(kind: usize) -> bool
    ensures { result ≡ is_group_in kind }
{
    !matches!(kind, REF..=DTM)
}
