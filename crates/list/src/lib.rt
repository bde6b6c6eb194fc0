// A list of rows (document 01, "The house list") as two lent tables, so that whoever goes by a list takes it as an input.
// `rows` has sixteen cells a row, `pool` the names, words and namespace. Every function here takes any tables and answers by what they
// say; what the answers mean for a well-formed list is said, and proved, once for all sound tables.
#![tactic(auto)]

pub mod table; // table.rt: the columns, and the numbers for counts and kinds
pub mod kind; // kind.rt: groups and leaves by their kind's number
pub mod lookup; // lookup.rt: a cell, a child by its name, what is due, a word's place
pub mod lay; // lay.rt: a table over 256 rows
pub mod word; // word.rt: the place of a word in an ENUM
