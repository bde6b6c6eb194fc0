// The level of each byte (class.rt).

ghost use Rattle.value_levels.specs.mirror.Levels.{Leveled};

const BYTES: usize = 256;

pub type Levels = [u8; BYTES];

// The table. It is bound once for a file, and lent where a loop looks it up.
pub fn levels() -> Levels
    ensures { Leveled result }
{
    LEVELS
}

const LEVELS: Levels = [
    // from 0x00 on
    0, 0, 0, 0, 0, 0, 0, 0, 0, 0, 0, 0, 0, 0, 0, 0,
    // from 0x10 on
    0, 0, 0, 0, 0, 0, 0, 0, 0, 0, 0, 0, 0, 0, 0, 0,
    // from 0x20 on
    2, 1, 1, 1, 1, 1, 0, 2, 2, 2, 1, 2, 2, 2, 2, 1,
    // from 0x30 on
    4, 4, 4, 4, 4, 4, 4, 4, 4, 4, 2, 1, 0, 1, 0, 2,
    // from 0x40 on
    1, 3, 3, 3, 3, 3, 3, 3, 3, 3, 3, 3, 3, 3, 3, 3,
    // from 0x50 on
    3, 3, 3, 3, 3, 3, 3, 3, 3, 3, 3, 1, 1, 1, 1, 1,
    // from 0x60 on
    0, // the backtick
    3, 3, 3, 3, 3, 3, 3, 3, 3, 3, 3, 3, 3, 3, 3,
    // from 0x70 on
    3, 3, 3, 3, 3, 3, 3, 3, 3, 3, 3, 1, 1, 1, 1, 0,
    // from 0x80 on
    0, 0, 0, 0, 0, 0, 0, 0, 0, 0, 0, 0, 0, 0, 0, 0,
    // from 0x90 on
    0, 0, 0, 0, 0, 0, 0, 0, 0, 0, 0, 0, 0, 0, 0, 0,
    // from 0xA0 on
    0, 0, 0, 0, 0, 0, 0, 0, 0, 0, 0, 0, 0, 0, 0, 0,
    // from 0xB0 on
    0, 0, 0, 0, 0, 0, 0, 0, 0, 0, 0, 0, 0, 0, 0, 0,
    // from 0xC0 on
    0, 0, 0, 0, 0, 0, 0, 0, 0, 0, 0, 0, 0, 0, 0, 0,
    // from 0xD0 on
    0, 0, 0, 0, 0, 0, 0, 0, 0, 0, 0, 0, 0, 0, 0, 0,
    // from 0xE0 on
    0, 0, 0, 0, 0, 0, 0, 0, 0, 0, 0, 0, 0, 0, 0, 0,
    // from 0xF0 on
    0, 0, 0, 0, 0, 0, 0, 0, 0, 0, 0, 0, 0, 0, 0, 0,
];
