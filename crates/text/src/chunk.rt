// Bytes as one number, the first the least.

ghost use Rattle.std.specs.Prelude.{◌≡◌, ◌<◌, [], ◌∷◌};
ghost use Rattle.text.specs.Lists.{Each};
ghost use Rattle.text.specs.Little.{little, Byte};

// What a fifth byte counts there.
pub const FIFTH: u64 = 4294967296;

// Four bytes, which the compiler reads at once where they are neighbours.
pub fn joined(a: u8, b: u8, c: u8, d: u8) -> u64
    ensures { (result ≡ little (a ∷ b ∷ c ∷ d ∷ [])) × Each Byte (a ∷ b ∷ c ∷ d ∷ []) × (result < 4294967296) }
{
    u64::from(u32::from_le_bytes([a, b, c, d]))
}
