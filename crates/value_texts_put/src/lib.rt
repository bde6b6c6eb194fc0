// The text of a stored REF, TXT, IBAN or CCY. How their bytes are written is in `value_kinds`, since that needs what the judge said.
#![tactic(auto)]

pub mod to_text; // to_text.rt: the bytes of a text with `&`, `<` and `>` by entities
