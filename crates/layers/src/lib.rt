// Two thin layers over the machine: its registers lent to a step, and the program as a lent run of records.
#![tactic(auto)]

pub mod place;
pub mod records;
