// eBPF instructions: their eight bytes, and a machine that carries them out.
#![tactic(auto)]

pub mod act;
pub mod alu;
pub mod insn;
pub(crate) mod place;
pub mod regs;
pub mod run;
pub mod step;
pub mod sure;
