// A node in its table: how many numbers it has, which of them holds its fields, and how far up in that one each field of eight bits stands.

// Kept: a node is a row of numbers and no struct: tools/lists/make writes the rows as one table of constants, one computed test reads them
// (`lists_tabled`), and a mask and what it leaves are compared as they stand.

// The numbers of a node.
pub const WIDTH: usize = 11;

// Which of them is the mask of the second eight bytes of its tag, which holds the fields, where what is compared last begins, and which two an ENUM's
// words, two in each.
pub const SECOND_MASK: usize = 3;

pub const INFO: usize = 4;

pub const END: usize = INFO + 1;

pub const WORDS: usize = 9;

pub const MORE_WORDS: usize = WORDS + 1;

// The node after this one, and the node of what else may come in its place.
pub const NEXT: u64 = 65536;

pub const OTHER: u64 = 16777216;

// k of TXTk, and the row byte.
pub const MOST: u64 = 4294967296;

pub const ROW: u64 = 1099511627776;

// How many bytes come after the tag's first sixteen, or as a leaf's closing tag; and how many of an item the tag has.
pub const MORE: u64 = 281474976710656;

pub const ITEM: u64 = 72057594037927936;

// The upper of two words in one number; how many letters a word has.
pub const UPPER: u64 = 4294967296;

pub const LETTERS: usize = 4;

// The letters of a currency; with its closing quote and `>`, what stands between a node's bytes and an amount.
pub const CURRENCY: usize = 3;

pub const COINED: usize = CURRENCY + 2;

// The kinds that are no type's: an amount in single quotes, and the root's end.
pub const SINGLE: u8 = 12;

pub const OVER: u64 = 13;
