// Refusals 1 to 8 of a sheet, the refusals 11 to 19 of a primitive, and the program's length.
#![tactic(auto)]

pub mod check;
pub mod length;
pub mod measure;
pub mod refusal;
