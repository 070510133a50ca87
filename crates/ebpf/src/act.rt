// What an instruction does, given its fields and the registers: one function for each family of opcodes. `class` and `operation` stay numbers, here
// and in alu and sure: they are RFC 9669's, parts of the opcode byte, and an enum would be a second table of them.
ghost use Rattle.std.specs.Prelude.{◌≡◌, ◌+◌, ◌≤◌, ℕ, List, length};
ghost use Rattle.ebpf.specs.Form.{plain, allowed, form_of, load_form, reg64_form, imm64_form, imm32_form};
ghost use Rattle.ebpf.specs.Form.{swap_form, jump_form, branch_form, branch_reg_form, exit_form};
ghost use Rattle.ebpf.specs.declared.regs.Regs.{Regs};
ghost use Rattle.ebpf.specs.Step.{taken, readable, Width, le_at, context_act, frame_act, load_act};
ghost use Rattle.ebpf.specs.Step.{reg64_act, imm64_act, imm32_act, swap_act, branch_act, branch_reg_act, exit_act, act_of};

use crate::alu;
use crate::insn::{Insn, R1};
use crate::regs::Regs;

// How a run ends: `stop` is one of document 01's numbers, 0 at the exit, which C sees, and `r0` what R0 holds then. `r0` comes first, where
// `Writes` has its value: the other way round a step of `run` takes 59 instructions and not 44.
#[derive(Clone, Copy, PartialEq, Eq)]
pub struct Halt {
    pub r0: u64,
    pub stop: u8,
}

#[derive(Clone, Copy)]
pub enum Act {
    Writes { dst: u8, value: u64 },
    Jumps { off: u16 },
    Falls,
    Halts(Halt),
}

const NOT_OURS: Act = Act::Halts(Halt { stop: 30, r0: 0 });

const OUTSIDE: Act = Act::Halts(Halt { stop: 31, r0: 0 });

const NOT_WRITTEN: Act = Act::Halts(Halt { stop: 32, r0: 0 });

// A frame, and the address at which it lies.
#[derive(Clone, Copy)]
pub(crate) struct Frame<'a> {
    pub(crate) bytes: &'a [u8],
    pub(crate) start: u64,
}

pub(crate) fn branch_to(holds: bool, off: u16) -> Act
    ensures { result ≡ taken holds off }
{
    if holds {
        Act::Jumps { off }
    } else {
        Act::Falls
    }
}

// A register other than R1.
#[tactic(auto, unfolding(crate::specs::Form::plain))]
fn is_plain(r: u8) -> bool
    ensures { result ≡ plain r }
{
    r < 7 && r != R1
}

// No zero divisor, no shift by 32 or more. `operation` is RFC 9669's number, as it stands in the opcode's high half.
#[tactic(auto, unfolding(crate::specs::Form::allowed))]
fn is_allowed(operation: u8, imm: u32) -> bool
    ensures { result ≡ allowed operation imm }
{
    match operation {
        3 => imm != 0,
        6 | 7 => imm < 32,
        _ => true,
    }
}

// The number of `size` bytes at `p`, little-endian.
#[tactic(auto, unfolding(crate::specs::Step::le_at))]
pub(crate) fn word(frame: &[u8], p: usize, size: u8) -> u64
    requires { (p + size ≤ length frame.now) × Width size }
    ensures { result ≡ le_at frame.now p size }
{
    match size {
        1 => u64::from(frame[p]),
        2 => u64::from(u16::from_le_bytes([frame[p], frame[p + 1]])),
        _ => u64::from(u32::from_le_bytes([frame[p], frame[p + 1], frame[p + 2], frame[p + 3]])),
    }
}

// A load from the context: the frame's start or its end.
#[tactic(auto, unfolding(crate::specs::Step::context_act))]
pub(crate) fn context_act(frame: Frame, dst: u8, off: u16) -> Act
    ensures { result ≡ context_act (length frame.entry.bytes.now) frame.entry.start dst off }
{
    let value = match off {
        0 => frame.start,
        4 => frame.start.wrapping_add(frame.bytes.len() as u64),
        _ => return OUTSIDE,
    };
    Act::Writes { dst, value }
}

// A load from the frame.
#[tactic(auto, unfolding(crate::specs::Step::frame_act))]
fn frame_act(frame: Frame, size: u8, dst: u8, at: u64) -> Act
    requires { Width size }
    ensures { result ≡ frame_act frame.entry.bytes.now frame.entry.start size dst at }
{
    let Some(p) = at.checked_sub(frame.start) else {
        return OUTSIDE;
    };
    let len = frame.bytes.len() as u64;
    if len < p || len - p < u64::from(size) {
        return OUTSIDE;
    }
    Act::Writes {
        dst,
        value: word(frame.bytes, p as usize, size),
    }
}

#[tactic(auto, unfolding(crate::specs::Step::load_act))]
fn load_act(frame: Frame, regs: &Regs, size: u8, dst: u8, src: u8, off: u16) -> Act
    requires { Width size }
    ensures { result ≡ load_act frame.entry.bytes.now frame.entry.start regs.now size dst src off }
{
    if !regs.known(src) {
        return NOT_WRITTEN;
    }
    let at = regs.value(src).wrapping_add(alu::wide16(off));
    frame_act(frame, size, dst, at)
}

// Whether the destination is written, or the operation is a move, which does not read it.
#[tactic(auto, unfolding(crate::specs::Step::readable))]
fn is_readable(regs: &Regs, operation: u8, dst: u8) -> bool
    ensures { result ≡ readable regs.now operation dst }
{
    operation == 11 || regs.known(dst)
}

#[tactic(auto, unfolding(crate::specs::Step::reg64_act))]
fn reg64_act(regs: &Regs, operation: u8, dst: u8, src: u8) -> Act
    ensures { result ≡ reg64_act regs.now operation dst src }
{
    if !regs.known(src) || !is_readable(regs, operation, dst) {
        return NOT_WRITTEN;
    }
    Act::Writes {
        dst,
        value: alu::op64(operation, regs.value(dst), regs.value(src)),
    }
}

#[tactic(auto, unfolding(crate::specs::Step::imm64_act))]
fn imm64_act(regs: &Regs, operation: u8, dst: u8, imm: u32) -> Act
    ensures { result ≡ imm64_act regs.now operation dst imm }
{
    if !is_readable(regs, operation, dst) {
        return NOT_WRITTEN;
    }
    Act::Writes {
        dst,
        value: alu::op64(operation, regs.value(dst), alu::wide32(imm)),
    }
}

#[tactic(auto, unfolding(crate::specs::Step::imm32_act))]
fn imm32_act(regs: &Regs, operation: u8, dst: u8, imm: u32) -> Act
    ensures { result ≡ imm32_act regs.now operation dst imm }
{
    if !regs.known(dst) {
        return NOT_WRITTEN;
    }
    let value = alu::op32(operation, alu::low32(regs.value(dst)), imm);
    Act::Writes {
        dst,
        value: u64::from(value),
    }
}

#[tactic(auto, unfolding(crate::specs::Step::swap_act))]
fn swap_act(regs: &Regs, dst: u8, bits: u32) -> Act
    ensures { result ≡ swap_act regs.now dst bits }
{
    if !regs.known(dst) {
        return NOT_WRITTEN;
    }
    Act::Writes {
        dst,
        value: alu::swap(bits, regs.value(dst)),
    }
}

#[tactic(auto, unfolding(crate::specs::Step::branch_act))]
fn branch_act(regs: &Regs, class: u8, operation: u8, dst: u8, imm: u32, off: u16) -> Act
    ensures { result ≡ branch_act regs.now class operation dst imm off }
{
    if !regs.known(dst) {
        return NOT_WRITTEN;
    }
    let holds = alu::compare_imm(class, operation, regs.value(dst), imm);
    branch_to(holds, off)
}

#[tactic(auto, unfolding(crate::specs::Step::branch_reg_act))]
fn branch_reg_act(regs: &Regs, operation: u8, dst: u8, src: u8, off: u16) -> Act
    ensures { result ≡ branch_reg_act regs.now operation dst src off }
{
    if !regs.known(dst) || !regs.known(src) {
        return NOT_WRITTEN;
    }
    let holds = alu::compare(operation, regs.value(dst), regs.value(src));
    branch_to(holds, off)
}

#[tactic(auto, unfolding(crate::specs::Step::exit_act))]
fn exit_act(regs: &Regs) -> Act
    ensures { result ≡ exit_act regs.now }
{
    if !regs.known(0) {
        return NOT_WRITTEN;
    }
    Act::Halts(Halt {
        stop: 0,
        r0: regs.value(0),
    })
}

// Loads: from the context by words, from the frame by words, halves and bytes.
#[tactic(auto, unfolding(crate::specs::Step::act_of, crate::specs::Form::load_form, crate::specs::Form::plain, crate::specs::Insn::dst_of, crate::specs::Insn::src_of))]
fn load(size: u8, i: &Insn, frame: Frame, regs: &Regs) -> Act
    requires { Width size }
    ensures { result ≡ act_of (load_form size i.now.regs i.now.off i.now.imm) frame.entry.bytes.now frame.entry.start regs.now }
{
    if i.imm != 0 || !is_plain(i.dst()) {
        return NOT_OURS;
    }
    if i.src() == R1 && size == 4 {
        return context_act(frame, i.dst(), i.off);
    }
    if !is_plain(i.src()) {
        return NOT_OURS;
    }
    load_act(frame, regs, size, i.dst(), i.src(), i.off)
}

// 64-bit arithmetic with a register.
#[tactic(auto, unfolding(crate::specs::Step::act_of, crate::specs::Form::reg64_form, crate::specs::Insn::dst_of, crate::specs::Insn::src_of))]
fn reg64(operation: u8, i: &Insn, regs: &Regs) -> Act
    ensures { (frame : List ℕ) (start : ℕ) → result ≡ act_of (reg64_form operation i.now.regs i.now.off i.now.imm) frame start regs.now }
{
    if i.off != 0 || i.imm != 0 || !is_plain(i.dst()) || !is_plain(i.src()) {
        return NOT_OURS;
    }
    reg64_act(regs, operation, i.dst(), i.src())
}

// 64-bit arithmetic with an immediate.
#[tactic(auto, unfolding(crate::specs::Step::act_of, crate::specs::Form::imm64_form))]
fn imm64(operation: u8, i: &Insn, regs: &Regs) -> Act
    ensures { (frame : List ℕ) (start : ℕ) → result ≡ act_of (imm64_form operation i.now.regs i.now.off i.now.imm) frame start regs.now }
{
    if i.off != 0 || !is_plain(i.regs) {
        return NOT_OURS;
    }
    imm64_act(regs, operation, i.regs, i.imm)
}

// 32-bit arithmetic with an immediate.
#[tactic(auto, unfolding(crate::specs::Step::act_of, crate::specs::Form::imm32_form))]
fn imm32(operation: u8, i: &Insn, regs: &Regs) -> Act
    ensures { (frame : List ℕ) (start : ℕ) → result ≡ act_of (imm32_form operation i.now.regs i.now.off i.now.imm) frame start regs.now }
{
    if i.off != 0 || !is_plain(i.regs) || !is_allowed(operation, i.imm) {
        return NOT_OURS;
    }
    imm32_act(regs, operation, i.regs, i.imm)
}

// Byte swaps to big-endian.
#[tactic(auto, unfolding(crate::specs::Step::act_of, crate::specs::Form::swap_form))]
fn swap_bytes(i: &Insn, regs: &Regs) -> Act
    ensures { (frame : List ℕ) (start : ℕ) → result ≡ act_of (swap_form i.now.regs i.now.off i.now.imm) frame start regs.now }
{
    if i.off != 0 || !is_plain(i.regs) || (i.imm != 16 && i.imm != 32) {
        return NOT_OURS;
    }
    swap_act(regs, i.regs, i.imm)
}

// The jump that is always taken.
#[tactic(auto, unfolding(crate::specs::Step::act_of, crate::specs::Form::jump_form))]
fn jump(i: &Insn) -> Act
    ensures { (frame : List ℕ) (start : ℕ) (r : Regs) → result ≡ act_of (jump_form i.now.regs i.now.off i.now.imm) frame start r }
{
    if i.regs != 0 || i.imm != 0 {
        return NOT_OURS;
    }
    Act::Jumps { off: i.off }
}

// Jumps that compare with an immediate.
#[tactic(auto, unfolding(crate::specs::Step::act_of, crate::specs::Form::branch_form))]
fn branch(class: u8, operation: u8, i: &Insn, regs: &Regs) -> Act
    ensures { (frame : List ℕ) (start : ℕ) → result ≡ act_of (branch_form class operation i.now.regs i.now.off i.now.imm) frame start regs.now }
{
    if !is_plain(i.regs) {
        return NOT_OURS;
    }
    branch_act(regs, class, operation, i.regs, i.imm, i.off)
}

// Jumps that compare with a register.
#[tactic(auto, unfolding(crate::specs::Step::act_of, crate::specs::Form::branch_reg_form, crate::specs::Insn::dst_of, crate::specs::Insn::src_of))]
fn branch_reg(operation: u8, i: &Insn, regs: &Regs) -> Act
    ensures { (frame : List ℕ) (start : ℕ) → result ≡ act_of (branch_reg_form operation i.now.regs i.now.off i.now.imm) frame start regs.now }
{
    if i.imm != 0 || !is_plain(i.dst()) || !is_plain(i.src()) {
        return NOT_OURS;
    }
    branch_reg_act(regs, operation, i.dst(), i.src(), i.off)
}

// The exit.
#[tactic(auto, unfolding(crate::specs::Step::act_of, crate::specs::Form::exit_form))]
fn exit(i: &Insn, regs: &Regs) -> Act
    ensures { (frame : List ℕ) (start : ℕ) → result ≡ act_of (exit_form i.now.regs i.now.off i.now.imm) frame start regs.now }
{
    if i.regs != 0 || i.off != 0 || i.imm != 0 {
        return NOT_OURS;
    }
    exit_act(regs)
}

// What an instruction does, by its opcode.
#[tactic(auto, unfolding(crate::specs::Step::act_of, crate::specs::Form::form_of, crate::specs::Form::form_at))]
pub(crate) fn act_of(i: &Insn, frame: Frame, regs: &Regs) -> Act
    ensures { result ≡ act_of (form_of i.now) frame.entry.bytes.now frame.entry.start regs.now }
{
    match i.code {
        0x61 => load(4, i, frame, regs),
        0x69 => load(2, i, frame, regs),
        0x71 => load(1, i, frame, regs),
        0x0f => reg64(0, i, regs),
        0x1f => reg64(1, i, regs),
        0xbf => reg64(11, i, regs),
        0x07 => imm64(0, i, regs),
        0xb7 => imm64(11, i, regs),
        0x04 => imm32(0, i, regs),
        0x14 => imm32(1, i, regs),
        0x24 => imm32(2, i, regs),
        0x34 => imm32(3, i, regs),
        0x44 => imm32(4, i, regs),
        0x54 => imm32(5, i, regs),
        0x64 => imm32(6, i, regs),
        0x74 => imm32(7, i, regs),
        0xa4 => imm32(10, i, regs),
        0xdc => swap_bytes(i, regs),
        0x05 => jump(i),
        0x15 => branch(5, 1, i, regs),
        0x25 => branch(5, 2, i, regs),
        0x35 => branch(5, 3, i, regs),
        0x45 => branch(5, 4, i, regs),
        0x55 => branch(5, 5, i, regs),
        0xa5 => branch(5, 10, i, regs),
        0xb5 => branch(5, 11, i, regs),
        0x16 => branch(6, 1, i, regs),
        0x26 => branch(6, 2, i, regs),
        0x36 => branch(6, 3, i, regs),
        0x46 => branch(6, 4, i, regs),
        0x56 => branch(6, 5, i, regs),
        0xa6 => branch(6, 10, i, regs),
        0xb6 => branch(6, 11, i, regs),
        0x2d => branch_reg(2, i, regs),
        0x95 => exit(i, regs),
        _ => NOT_OURS,
    }
}
