// Loads into R4, and the conditional jumps on R4.
ghost use Rattle.std.specs.Prelude.{◌≡◌, ◌==◌, if◌then◌else◌};
ghost use Rattle.patches.specs.Code.{emission, block};
ghost use Rattle.filter.specs.declared.ast.AccessSize.TheVariants.{Byte, Half, Word};
ghost use Rattle.ebpf.specs.Insn.{jump_imm};
ghost use Rattle.ebpf.specs.Opcode.{JEQ, JNE, JGT, JGE, JLT, JLE, JSET};
ghost use Rattle.pieces.specs.Fragments.{Fits, load, end_of, class_of};

use ebpf::insn::{Insn, R4};
use filter::ast::AccessSize;
use patches::Codegen;

// Where a number of this size at an offset ends; in 32 bits, as the Rust's sum.
pub fn end_of(size: AccessSize, offset: u32) -> u32
    ensures { result ≡ end_of size offset }
{
    offset.wrapping_add(u32::from(size.bytes()))
}

// A function for each size, by the Rust's names.
fn push_ldx_b(code: &mut Codegen, base: u8, off: u32)
    requires { Fits (load Byte base off) code.old.patches }
    ensures { emission code.new ≡ block (load Byte base off) (emission code.old) }
{
    code.push(Insn::ldx_b(R4, base, (off & 0xffff) as u16));
}

fn push_ldx_h_be(code: &mut Codegen, base: u8, off: u32)
    requires { Fits (load Half base off) code.old.patches }
    ensures { emission code.new ≡ block (load Half base off) (emission code.old) }
{
    code.push(Insn::ldx_h(R4, base, (off & 0xffff) as u16));
    code.push(Insn::be16(R4));
}

fn push_ldx_w_be(code: &mut Codegen, base: u8, off: u32)
    requires { Fits (load Word base off) code.old.patches }
    ensures { emission code.new ≡ block (load Word base off) (emission code.old) }
{
    code.push(Insn::ldx_w(R4, base, (off & 0xffff) as u16));
    code.push(Insn::be32(R4));
}

// R4 = the number at base + off, in the host's order.
pub fn push_load(code: &mut Codegen, size: AccessSize, base: u8, off: u32)
    requires { Fits (load size base off) code.old.patches }
    ensures { emission code.new ≡ block (load size base off) (emission code.old) }
{
    match size {
        AccessSize::Byte => push_ldx_b(code, base, off),
        AccessSize::Half => push_ldx_h_be(code, base, off),
        AccessSize::Word => push_ldx_w_be(code, base, off),
    }
}

// In plain mode the one instruction, in mended mode the other. The promises are of any byte: 0 is plain, every other mended.
fn by_mode(mode: u8, plain: Insn, mended: Insn) -> Insn
    ensures { result ≡ (if mode == 0 then plain else mended) }
{
    if mode == 0 { plain } else { mended }
}

// Seven functions by the names of the Rust's constructors: an enum of them beside its operations would be no plainer.
// The conditional jumps on R4 and an immediate, their distance still 0: class JMP in plain mode, JMP32 in mended mode.
pub fn jeq(mode: u8, k: u32) -> Insn
    ensures { result ≡ jump_imm (class_of mode) JEQ 4 k 0 }
{
    by_mode(mode, Insn::jeq_imm(R4, k, 0), Insn::jeq32_imm(R4, k, 0))
}

pub fn jne(mode: u8, k: u32) -> Insn
    ensures { result ≡ jump_imm (class_of mode) JNE 4 k 0 }
{
    by_mode(mode, Insn::jne_imm(R4, k, 0), Insn::jne32_imm(R4, k, 0))
}

pub fn jgt(mode: u8, k: u32) -> Insn
    ensures { result ≡ jump_imm (class_of mode) JGT 4 k 0 }
{
    by_mode(mode, Insn::jgt_imm(R4, k, 0), Insn::jgt32_imm(R4, k, 0))
}

pub fn jge(mode: u8, k: u32) -> Insn
    ensures { result ≡ jump_imm (class_of mode) JGE 4 k 0 }
{
    by_mode(mode, Insn::jge_imm(R4, k, 0), Insn::jge32_imm(R4, k, 0))
}

pub fn jlt(mode: u8, k: u32) -> Insn
    ensures { result ≡ jump_imm (class_of mode) JLT 4 k 0 }
{
    by_mode(mode, Insn::jlt_imm(R4, k, 0), Insn::jlt32_imm(R4, k, 0))
}

pub fn jle(mode: u8, k: u32) -> Insn
    ensures { result ≡ jump_imm (class_of mode) JLE 4 k 0 }
{
    by_mode(mode, Insn::jle_imm(R4, k, 0), Insn::jle32_imm(R4, k, 0))
}

pub fn jset(mode: u8, k: u32) -> Insn
    ensures { result ≡ jump_imm (class_of mode) JSET 4 k 0 }
{
    by_mode(mode, Insn::jset_imm(R4, k, 0), Insn::jset32_imm(R4, k, 0))
}
