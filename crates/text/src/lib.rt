// Bytes, spans and parts of bytes, compared: what every layer above reads texts with. Numbers as bytes and as digits are the code of
// `text_bytes` and `text_digits`; what is said and proved of them stands here.
#![tactic(auto)]

pub mod class; // class.rt: bytes by class
pub mod run; // run.rt: how far a class reaches, by any test of a byte
pub mod span; // span.rt: how far a class reaches
pub mod chunk; // chunk.rt: bytes as one number
pub mod part; // part.rt: parts of slices, cut out and compared
pub mod width; // width.rt: how many bytes a number has
