// Loads with guard and single checks. A register that is not named is R4, and R2 is the frame's start. Failing jumps lead
// to a place that is known beforehand (in `check(src); ja; check(dst)` the source's lead to the destination's check) or,
// where the place is 0, stay open (a number and no Option: `led`, which the promises cite, says so).
ghost use Rattle.std.specs.Prelude.{◌≡◌, suc, ◌+◌, ◌-◌, ◌≤◌, [], ◌∷◌};
ghost use Rattle.patches.specs.Code.{emission, push1, block};
ghost use Rattle.patches.specs.Code.Slot.{failure};
ghost use Rattle.pieces.specs.Fragments.{Fits, Leads, led, lead, guard, emit_load, check};

use crate::load::{end_of, jne, push_load};
use ebpf::insn::{Insn, R2, R3, R5};
use filter::ast::AccessSize;
use patches::Codegen;

// How far it is from behind place p to place end.
fn distance(p: u32, end: u32) -> u16
    requires { end ≤ p + 65536 }
    ensures { result ≡ end - suc p }
{
    if end <= p { 0 } else { (end - p - 1) as u16 }
}

// A jump that leads to place end on failure, or one that is open.
pub fn push_failing(code: &mut Codegen, i: Insn, end: u32)
    requires { Leads end (failure i ∷ []) code.old.patches }
    ensures { emission code.new ≡ push1 (led end code.old.patches.pos (failure i)) (emission code.old) }
{
    if end == 0 {
        code.push_failure(i);
    } else {
        code.push_jump(i, distance(code.patches.pos, end));
    }
}

// R5 = base + to, which must not lie past R3.
fn push_guard_to(code: &mut Codegen, base: u8, to: u32, end: u32)
    requires { Leads end (guard base to) code.old.patches }
    ensures { emission code.new ≡ block (lead end code.old.patches.pos (guard base to)) (emission code.old) }
{
    code.push(Insn::mov64_reg(R5, base));
    code.push(Insn::add64_imm(R5, to));
    push_failing(code, Insn::jgt_reg(R5, R3, 0), end);
}

// The same, open.
pub fn push_guard(code: &mut Codegen, base: u8, end: u32)
    requires { Fits (guard base end) code.old.patches }
    ensures { emission code.new ≡ block (guard base end) (emission code.old) }
{
    push_guard_to(code, base, end, 0);
}

// `emit_load_byte`, `emit_load_half`, `emit_load_word`.
#[inline]
pub fn emit_load_to(code: &mut Codegen, size: AccessSize, offset: u32, end: u32)
    requires { Leads end (emit_load size offset) code.old.patches }
    ensures { emission code.new ≡ block (lead end code.old.patches.pos (emit_load size offset)) (emission code.old) }
{
    push_guard_to(code, R2, end_of(size, offset), end);
    push_load(code, size, R2, offset);
}

// The same, open.
#[inline]
pub fn emit_load(code: &mut Codegen, size: AccessSize, offset: u32)
    requires { Fits (emit_load size offset) code.old.patches }
    ensures { emission code.new ≡ block (emit_load size offset) (emission code.old) }
{
    emit_load_to(code, size, offset, 0);
}

// The number at an offset from a place in the frame; their sum is in 32 bits, as the Rust's.
pub fn emit_load_from(code: &mut Codegen, size: AccessSize, base: u32, offset: u32)
    requires { Fits (emit_load size (base + offset)) code.old.patches }
    ensures { emission code.new ≡ block (emit_load size (base + offset)) (emission code.old) }
{
    emit_load(code, size, base.wrapping_add(offset));
}

// `check_byte`, `check_half`, `check_word`.
#[inline]
pub fn check_to(code: &mut Codegen, size: AccessSize, offset: u32, expected: u32, end: u32)
    requires { Leads end (check code.old.mode size offset expected) code.old.patches }
    ensures { emission code.new ≡ block (lead end code.old.patches.pos (check code.old.mode size offset expected)) (emission code.old) }
{
    emit_load_to(code, size, offset, end);
    push_failing(code, jne(code.mode, expected), end);
}

// The same, open.
#[inline]
pub fn check(code: &mut Codegen, size: AccessSize, offset: u32, expected: u32)
    requires { Fits (check code.old.mode size offset expected) code.old.patches }
    ensures { emission code.new ≡ block (check code.old.mode size offset expected) (emission code.old) }
{
    check_to(code, size, offset, expected, 0);
}
