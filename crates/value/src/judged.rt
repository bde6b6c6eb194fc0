// What the raw text of a leaf is judged to be; `None` of this, where it has no value.

#[derive(Clone, Copy)]
pub struct Day {
    pub year: u16,
    pub month: u8,
    pub day: u8,
}

// A moment is its written parts: microseconds, and offset minutes plus 840.
#[derive(Clone, Copy)]
pub struct Moment {
    pub year: u16,
    pub month: u8,
    pub day: u8,
    pub hour: u8,
    pub minute: u8,
    pub second: u8,
    pub micros: u32,
    pub offset: u16,
}

#[derive(Clone, Copy)]
pub enum Judged {
    // a text whose characters have so many bytes; they stand in the raw text
    Text(usize),
    Truth(bool),
    Natural(u64),
    // coefficient and scale; the currency stands in its attribute
    Amount(u64, u8),
    Day(Day),
    Moment(Moment),
}
