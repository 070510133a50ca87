// Port of ebpf_codegen.rs: the pieces that the code of primitives is made of, for the crate `codegen`; each caller shows what they ask.
#![tactic(auto, using(crate::proofs::Laws::laws))]

pub mod ether;
pub mod guarded;
pub mod load;
pub mod steps;
