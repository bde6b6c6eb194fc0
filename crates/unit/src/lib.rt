// The unit: one statement file in, its record image out; images read, and values picked from them.
#![tactic(auto)]

pub mod check; // check.rt: the entry for files
pub mod read; // read.rt: the entry for images
pub mod pick; // pick.rt: the entry for values
pub mod write; // write.rt: the entry for files that are written
pub mod tidy; // tidy.rt: the entry for files that are tidied
pub mod size; // size.rt: the entry for a file without a buffer
pub mod item; // item.rt: the entries for items
pub mod export; // export.rt: what the entries for C do, which unit_c exports
