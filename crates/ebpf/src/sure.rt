// The run of a program that is known to exit: no form, no register and no address is tested, since a test that failed would have
// stopped it.
ghost use Rattle.std.specs.Prelude.{◌≡◌, ◌+◌, ◌/◌, ◌%◌, ◌<◌, ◌≤◌, List, Bool, length, ◌≢◌, slice_index};
ghost use Rattle.ebpf.specs.Form.{form_of};
ghost use Rattle.ebpf.specs.Regs.{regs_of};
ghost use Rattle.ebpf.specs.Step.{Width, stopped, act_of};
ghost use Rattle.ebpf.specs.Run.{run_of};
ghost use Rattle.ebpf.specs.Sure.{read, Fine, Low, SureAct, values_after, address_of, sure_load, sure_word, sure_reg64, sure_imm64, sure_imm32};
ghost use Rattle.ebpf.specs.Sure.{sure_swap, sure_branch, sure_branch_reg};
ghost use Rattle.ebpf.specs.declared.act.Act.TheVariants.{Jumps};

use crate::act::{Act, Frame, Halt};
use crate::insn::R1;
use crate::place::Place;
use crate::{act, alu, step};

// A load from the frame, which lies at 0.
#[tactic(auto, unfolding(crate::specs::Sure::sure_load, crate::specs::Sure::address_of, crate::specs::Insn::dst_of, crate::specs::Insn::src_of))]
fn frame_load(size: u8, i: Place, frame: &[u8], values: &[u64; 7]) -> Act
    requires { Width size × ((read i).regs / 16 < 7) × (address_of (read i) values.now + size ≤ length frame.now) }
    ensures { result ≡ sure_load size (read i.entry) frame.now values.now }
{
    let p = values[i.src() as usize].wrapping_add(alu::wide16(i.off()));
    Act::Writes {
        dst: i.dst(),
        value: act::word(frame, p as usize, size),
    }
}

// A load of a word: from the context if R1 is its base.
#[tactic(auto, unfolding(crate::specs::Sure::sure_word, crate::specs::Insn::dst_of, crate::specs::Insn::src_of))]
fn word_load(i: Place, frame: &[u8], values: &[u64; 7]) -> Act
    requires { ((read i).regs / 16 ≢ 1) → ((read i).regs / 16 < 7) × (address_of (read i) values.now + 4 ≤ length frame.now) }
    ensures { result ≡ sure_word (read i.entry) frame.now values.now }
{
    if i.src() == R1 {
        let at_zero = Frame {
            bytes: frame,
            start: 0,
        };
        act::context_act(at_zero, i.dst(), i.off())
    } else {
        frame_load(4, i, frame, values)
    }
}

// 64-bit arithmetic with a register. `operation` here and below is RFC 9669's number, as it stands in the opcode's high half.
#[tactic(auto, unfolding(crate::specs::Sure::sure_reg64, crate::specs::Insn::dst_of, crate::specs::Insn::src_of))]
fn reg64(operation: u8, i: Place, values: &[u64; 7]) -> Act
    requires { ((read i).regs % 16 < 7) × ((read i).regs / 16 < 7) }
    ensures { result ≡ sure_reg64 operation (read i.entry) values.now }
{
    let (a, b) = (values[i.dst() as usize], values[i.src() as usize]);
    Act::Writes {
        dst: i.dst(),
        value: alu::op64(operation, a, b),
    }
}

// 64-bit arithmetic with an immediate.
#[tactic(auto, unfolding(crate::specs::Sure::sure_imm64))]
fn imm64(operation: u8, i: Place, values: &[u64; 7]) -> Act
    requires { (read i).regs < 7 }
    ensures { result ≡ sure_imm64 operation (read i.entry) values.now }
{
    Act::Writes {
        dst: i.regs(),
        value: alu::op64(operation, values[i.regs() as usize], alu::wide32(i.imm())),
    }
}

// 32-bit arithmetic with an immediate.
#[tactic(auto, unfolding(crate::specs::Sure::sure_imm32))]
fn imm32(operation: u8, i: Place, values: &[u64; 7]) -> Act
    requires { (read i).regs < 7 }
    ensures { result ≡ sure_imm32 operation (read i.entry) values.now }
{
    let value = alu::op32(operation, alu::low32(values[i.regs() as usize]), i.imm());
    Act::Writes {
        dst: i.regs(),
        value: u64::from(value),
    }
}

// Byte swaps to big-endian.
#[tactic(auto, unfolding(crate::specs::Sure::sure_swap))]
fn swap_bytes(i: Place, values: &[u64; 7]) -> Act
    requires { (read i).regs < 7 }
    ensures { result ≡ sure_swap (read i.entry) values.now }
{
    Act::Writes {
        dst: i.regs(),
        value: alu::swap(i.imm(), values[i.regs() as usize]),
    }
}

// Jumps that compare with an immediate.
#[tactic(auto, unfolding(crate::specs::Sure::sure_branch))]
fn branch(class: u8, operation: u8, i: Place, values: &[u64; 7]) -> Act
    requires { (read i).regs < 7 }
    ensures { result ≡ sure_branch class operation (read i.entry) values.now }
{
    let holds = alu::compare_imm(class, operation, values[i.regs() as usize], i.imm());
    act::branch_to(holds, i.off())
}

// Jumps that compare with a register.
#[tactic(auto, unfolding(crate::specs::Sure::sure_branch_reg, crate::specs::Insn::dst_of, crate::specs::Insn::src_of))]
fn branch_reg(operation: u8, i: Place, values: &[u64; 7]) -> Act
    requires { ((read i).regs % 16 < 7) × ((read i).regs / 16 < 7) }
    ensures { result ≡ sure_branch_reg operation (read i.entry) values.now }
{
    let (a, b) = (values[i.dst() as usize], values[i.src() as usize]);
    act::branch_to(alu::compare(operation, a, b), i.off())
}

// The exit.
fn leave(values: &[u64; 7]) -> Act
    ensures { result ≡ stopped 0 (slice_index values.now 0) }
{
    Act::Halts(Halt {
        stop: 0,
        r0: values[0],
    })
}

// What an instruction does, where it stops the machine for no fault.
fn act_of(i: Place, frame: &[u8], values: &[u64; 7]) -> Act
    requires { SureAct (read i) frame.now values.now }
    ensures { ((w : List Bool) → Fine (act_of (form_of (read i.entry)) frame.now 0 (regs_of values.now w)) → result ≡ act_of (form_of (read i.entry)) frame.now 0 (regs_of values.now w)) × Low result }
{
    match i.code() {
        0x61 => word_load(i, frame, values),
        0x69 => frame_load(2, i, frame, values),
        0x71 => frame_load(1, i, frame, values),
        0x0f => reg64(0, i, values),
        0x1f => reg64(1, i, values),
        0xbf => reg64(11, i, values),
        0x07 => imm64(0, i, values),
        0xb7 => imm64(11, i, values),
        0x04 => imm32(0, i, values),
        0x14 => imm32(1, i, values),
        0x24 => imm32(2, i, values),
        0x34 => imm32(3, i, values),
        0x44 => imm32(4, i, values),
        0x54 => imm32(5, i, values),
        0x64 => imm32(6, i, values),
        0x74 => imm32(7, i, values),
        0xa4 => imm32(10, i, values),
        0xdc => swap_bytes(i, values),
        0x05 => Act::Jumps { off: i.off() },
        0x15 => branch(5, 1, i, values),
        0x25 => branch(5, 2, i, values),
        0x35 => branch(5, 3, i, values),
        0x45 => branch(5, 4, i, values),
        0x55 => branch(5, 5, i, values),
        0xa5 => branch(5, 10, i, values),
        0xb5 => branch(5, 11, i, values),
        0x16 => branch(6, 1, i, values),
        0x26 => branch(6, 2, i, values),
        0x36 => branch(6, 3, i, values),
        0x46 => branch(6, 4, i, values),
        0x56 => branch(6, 5, i, values),
        0xa6 => branch(6, 10, i, values),
        0xb6 => branch(6, 11, i, values),
        0x2d => branch_reg(2, i, values),
        0x95 => leave(values),
        _ => unreachable!(),
    }
}

// The registers after it.
#[tactic(auto, unfolding(crate::specs::Sure::values_after))]
fn write_back(a: Act, values: &mut [u64; 7])
    requires { Low a }
    ensures { values.new ≡ values_after a values.old }
{
    if let Act::Writes { dst, value } = a {
        values[dst as usize] = value;
    }
}

// R0 of the program's run on the frame, which lies at 0, with a budget of as many steps as it has instructions.
pub fn run_sure(program: &[u8], frame: &[u8]) -> u64
    requires { (run_of program.now frame.now 0 (length program.now / 8)).stop ≡ 0 }
    ensures { result ≡ (run_of program.now frame.now 0 (length program.now / 8)).r0 }
{
    let mut values = [0; 7];
    let mut pc = 0;
    // `n` stays: it is what shows that the loop ends. A `for` would ask for an answer behind its last turn, which no run reaches.
    let mut n: u64 = 0;
    loop {
        let at = (pc * 8) as usize;
        let a = act_of(Place { program, at }, frame, &values);
        if let Some(halt) = step::halt_of(a) {
            return halt.r0;
        }
        write_back(a, &mut values);
        pc = step::place_after(a, pc);
        n += 1;
    }
}
