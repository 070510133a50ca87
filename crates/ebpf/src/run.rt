// The machine, run on a budget of steps.
ghost use Rattle.std.specs.Prelude.{◌≡◌, ◌+◌, ◌^◌, ◌<◌, length};
ghost use Rattle.ebpf.specs.Run.{ended_of, go_of, run_of, first_state};

use crate::act::{Frame, Halt};
use crate::regs::Regs;
use crate::step;

// `stop` is one of document 01's numbers, which C sees.
#[derive(Clone, Copy, PartialEq, Eq)]
pub struct Outcome {
    pub stop: u8,
    pub r0: u64,
    pub steps: u64,
}

// The outcome of a halt after `n` steps: an exit is a step carried out, any other halt is none.
#[tactic(auto, unfolding(crate::specs::Run::ended_of))]
fn ended(halt: Halt, n: u64) -> Outcome
    requires { n + 1 < 2 ^ 64 }
    ensures { result ≡ ended_of halt.stop halt.r0 n }
{
    Outcome {
        stop: halt.stop,
        r0: halt.r0,
        steps: if halt.stop == 0 { n + 1 } else { n },
    }
}

// The steps, one after the other.
fn drive(program: &[u8], frame: Frame, budget: u64) -> Outcome
    ensures { result ≡ go_of budget program.now frame.entry.bytes.now frame.entry.start first_state 0 }
{
    let mut regs = Regs {
        values: [0; 7],
        written: [false; 7],
    };
    let mut pc = 0;
    for n in 0..budget {
        let a = step::act_at(program, frame, &regs, pc);
        if let Some(halt) = step::halt_of(a) {
            return ended(halt, n);
        }
        step::write_back(a, &mut regs);
        pc = step::place_after(a, pc);
    }
    Outcome {
        stop: 34,
        r0: 0,
        steps: budget,
    }
}

// The program carried out on the frame, which lies at `start`, for at most `budget` steps. `frame` and `start` stay two parameters, as C passes them.
#[tactic(auto, unfolding(crate::specs::Run::run_of))]
pub fn run(program: &[u8], frame: &[u8], start: u64, budget: u64) -> Outcome
    ensures { result ≡ run_of program.now frame.now start budget }
{
    let (n, m) = (program.len(), frame.len() as u64);
    if n == 0 || n % 8 != 0 || start >= 0x1_0000_0000 || m >= 0x1_0000_0000 - start {
        return Outcome {
            stop: 35,
            r0: 0,
            steps: 0,
        };
    }
    let frame = Frame {
        bytes: frame,
        start,
    };
    drive(program, frame, budget)
}
