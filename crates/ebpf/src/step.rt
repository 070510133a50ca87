// One step of the machine, by value.
ghost use Rattle.std.specs.Prelude.{◌≡◌};
ghost use Rattle.ebpf.specs.Step.{act_at, regs_after, place_after, halt_of, step_of};

use crate::act::{Act, Frame, Halt};
use crate::insn::Insn;
use crate::regs::Regs;
use crate::{act, alu};

#[derive(Clone, Copy, PartialEq, Eq)]
pub struct State {
    pub regs: Regs,
    pub pc: u64,
}

// A step: the state after it, and how the run ends if it ends here.
#[derive(Clone, Copy, PartialEq, Eq)]
pub struct Turn {
    pub state: State,
    pub halt: Option<Halt>,
}

const NOWHERE: Act = Act::Halts(Halt { stop: 33, r0: 0 });

// What the instruction at place `pc` does.
#[tactic(auto, unfolding(crate::specs::Step::act_at))]
pub(crate) fn act_at(program: &[u8], frame: Frame, regs: &Regs, pc: u64) -> Act
    ensures { result ≡ act_at program.now frame.entry.bytes.now frame.entry.start regs.now pc }
{
    if pc < (program.len() / 8) as u64 {
        act::act_of(&Insn::at(program, (pc * 8) as usize), frame, regs)
    } else {
        NOWHERE
    }
}

// The registers after it.
#[tactic(auto, unfolding(crate::specs::Step::regs_after))]
pub(crate) fn write_back(a: Act, regs: &mut Regs)
    ensures { regs.new ≡ regs_after a regs.old }
{
    if let Act::Writes { dst, value } = a {
        regs.write(dst, value);
    }
}

// The place after it: a jump's offset counts from the next instruction, and places wrap on purpose.
#[tactic(auto, unfolding(crate::specs::Step::place_after))]
pub(crate) fn place_after(a: Act, pc: u64) -> u64
    ensures { result ≡ place_after a pc }
{
    let next = pc.wrapping_add(1);
    match a {
        Act::Writes { .. } | Act::Falls => next,
        Act::Jumps { off } => next.wrapping_add(alu::wide16(off)),
        Act::Halts(_) => pc,
    }
}

#[tactic(auto, unfolding(crate::specs::Step::halt_of))]
pub(crate) fn halt_of(a: Act) -> Option<Halt>
    ensures { result ≡ halt_of a }
{
    match a {
        Act::Halts(halt) => Some(halt),
        _ => None,
    }
}

// One step from the state `s`. `frame` and `start` stay two parameters, as `run` has them.
#[tactic(auto, unfolding(crate::specs::Step::step_of, crate::specs::Step::turn_of))]
pub fn step(program: &[u8], frame: &[u8], start: u64, s: State) -> Turn
    ensures { result ≡ step_of program.now frame.now start s }
{
    let mut regs = s.regs;
    let frame = Frame {
        bytes: frame,
        start,
    };
    let a = act_at(program, frame, &regs, s.pc);
    write_back(a, &mut regs);
    Turn {
        state: State {
            regs,
            pc: place_after(a, s.pc),
        },
        halt: halt_of(a),
    }
}
