// The house list: the 57 rows of document 01 as two tables, and the kind of a row by its number.
#![tactic(auto)]

pub mod tables; // tables.rt: the rows, and the pool of their names and words
pub mod kinds; // kinds.rt: the kind of a row
pub mod by_byte; // by_byte.rt: the rows of a list, by its kind byte
