// What a filter means, and the evaluator. Nothing here knows of instructions.
#![tactic(auto)]

pub mod access;
pub mod ether;
pub mod evaluate;
pub mod frame;
pub mod network;
pub mod packet;
pub mod ports;
pub mod primitive;
pub mod side;
pub mod walk;
