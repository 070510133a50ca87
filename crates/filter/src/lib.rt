// The filter tree's types, and the sheet that carries them: sections, records, and the lowest wrong byte.
#![tactic(auto)]

pub mod ast;
pub mod bytes;
pub mod prefix;
pub mod record;
pub mod sheet;
pub mod wrong;
