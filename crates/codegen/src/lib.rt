// Port of ebpf_codegen.rs: the code of each primitive.
#![tactic(auto, using(crate::proofs::Laws::laws))]

mod access;
mod address;
mod ip6;
mod mac;
mod ports;
pub mod primitive;
mod proto;
mod ranges;
mod tags;
