// Comparisons, the steps of a byte access, and the way to the transport header.
ghost use Rattle.std.specs.Prelude.{◌≡◌, ◌+◌, ◌*◌};
ghost use Rattle.patches.specs.Code.{emission, block};
ghost use Rattle.filter.specs.Record.{step_at};
ghost use Rattle.ebpf.specs.Insn.{alu32_imm};
ghost use Rattle.pieces.specs.Fragments.{Fits, alu32_of, emit_steps, transport, emit_cmp};

use crate::guarded::emit_load;
use crate::load::{jeq, jge, jgt, jle, jlt, jne, jset};
use ebpf::insn::{Insn, R2, R4, R6};
use filter::ast::{AccessSize, ArithOp, CmpOp};
use filter::record::step_at;
use patches::Codegen;

// `emit_cmp`: a jump where the comparison fails; BitAnd jumps over one.
pub fn emit_cmp(code: &mut Codegen, op: CmpOp, value: u32)
    requires { Fits (emit_cmp code.old.mode op value) code.old.patches }
    ensures { emission code.new ≡ block (emit_cmp code.old.mode op value) (emission code.old) }
{
    let mode = code.mode;
    match op {
        CmpOp::Eq => code.push_failure(jne(mode, value)),
        CmpOp::Ne => code.push_failure(jeq(mode, value)),
        CmpOp::Gt => code.push_failure(jle(mode, value)),
        CmpOp::Ge => code.push_failure(jlt(mode, value)),
        CmpOp::Lt => code.push_failure(jge(mode, value)),
        CmpOp::Le => code.push_failure(jgt(mode, value)),
        CmpOp::BitAnd => {
            code.push_jump(jset(mode, value), 1);
            code.push_failure(Insn::ja(0));
        }
    }
}

// `ebpf_alu32`; a Mod is refused before.
fn ebpf_alu32(op: ArithOp, imm: u32) -> Insn
    ensures { result ≡ alu32_imm (alu32_of op) 4 imm }
{
    match op {
        ArithOp::Add => Insn::add32_imm(R4, imm),
        ArithOp::Sub => Insn::sub32_imm(R4, imm),
        ArithOp::Mul => Insn::mul32_imm(R4, imm),
        ArithOp::Div => Insn::div32_imm(R4, imm),
        ArithOp::Mod => Insn::new(0xb4, R4, 0, 0, imm),
        ArithOp::And => Insn::and32_imm(R4, imm),
        ArithOp::Or => Insn::or32_imm(R4, imm),
        ArithOp::Xor => Insn::xor32_imm(R4, imm),
        ArithOp::Shl => Insn::lsh32_imm(R4, imm),
        ArithOp::Shr => Insn::rsh32_imm(R4, imm),
    }
}

// R6 at the transport header: R2, the network header's offset, and IPv4's header length.
pub fn emit_transport(code: &mut Codegen, net: u32)
    requires { Fits (transport net) code.old.patches }
    ensures { emission code.new ≡ block (transport net) (emission code.old) }
{
    emit_load(code, AccessSize::Byte, net);
    code.push(Insn::and32_imm(R4, 0x0f));
    code.push(Insn::lsh32_imm(R4, 2));
    code.push(Insn::mov64_reg(R6, R2));
    code.push(Insn::add64_imm(R6, net));
    code.push(Insn::add64_reg(R6, R4));
}

// The instruction of the step k places after step `from`.
// `steps` and `from` stay two: the part is all primitives', `from` counts on over them, and a struct would be built anew for each.
fn step_insn(steps: &[u8], from: u32, k: u16) -> Insn
    ensures { result ≡ alu32_imm (alu32_of (step_at steps.now (5 * (from + k))).op) 4 (step_at steps.now (5 * (from + k))).operand }
{
    let step = step_at(steps, from, k);
    ebpf_alu32(step.op, step.operand)
}

// n steps of a byte access, from step `from` on.
pub fn emit_steps(code: &mut Codegen, steps: &[u8], n: u16, from: u32)
    requires { Fits (emit_steps steps.now n from) code.old.patches }
    ensures { emission code.new ≡ block (emit_steps steps.now n from) (emission code.old) }
{
    for i in 0..n {
        code.push(step_insn(steps, from, i));
    }
}
