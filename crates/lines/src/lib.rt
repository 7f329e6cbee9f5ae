// The text form of the program `hits`: its two input lines parsed and packed, and the lines that it prints. Only that
// program calls these functions, which ask for a page with room for what is appended. The functions of `lent` write the
// same for a caller who lends a buffer, and no program here calls them.
#![tactic(auto)]

pub mod lent;
pub mod line;
pub mod pack;
pub mod parse;
