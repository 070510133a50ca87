// The machine's registers lent to a step, which updates them there.
ghost use Rattle.std.specs.Prelude.{◌≡◌};
ghost use Rattle.ebpf.specs.Step.{step_of};
ghost use Rattle.layers.specs.Place.{state_of, moved_of};

use ebpf::act::Halt;
use ebpf::regs::Regs;
use ebpf::step;
use ebpf::step::{State, Turn};

// Where a step leads and how the run ends, if it ends there: all of its turn but the registers.
#[derive(Clone, Copy, PartialEq, Eq)]
pub struct Moved {
    pub pc: u64,
    pub halt: Option<Halt>,
}

// One step from the place `pc`, on registers that are lent; its other parameters are those of `ebpf::step::step`.
#[tactic(auto, unfolding(crate::specs::Place::moved_of))]
pub fn step_in_place(program: &[u8], frame: &[u8], start: u64, pc: u64, regs: &mut Regs) -> Moved
    ensures { (result ≡ moved_of (step_of program.now frame.now start (state_of regs.old pc)))
        × (regs.new ≡ (step_of program.now frame.now start (state_of regs.old pc)).state.regs) }
{
    let Turn { state: after, halt } = step::step(program, frame, start, State { regs: *regs, pc });
    *regs = after.regs;
    Moved { pc: after.pc, halt }
}

// The same step as `ebpf::step::step`, by way of registers that are lent: callers need no `&mut Regs`.
#[tactic(auto, unfolding(crate::specs::Place::moved_of))]
pub fn step_by_place(program: &[u8], frame: &[u8], start: u64, s: State) -> Turn
    ensures { result ≡ step_of program.now frame.now start s }
{
    let mut regs = s.regs;
    let Moved { pc, halt } = step_in_place(program, frame, start, s.pc, &mut regs);
    Turn {
        state: State { regs, pc },
        halt,
    }
}
