// CCY and IBAN, which are their own text: from it, and from their bytes.
#![tactic(auto)]

pub mod ccy; // ccy.rt: three capitals
pub mod account; // account.rt: account numbers
