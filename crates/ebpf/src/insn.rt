// Port of ebpf.rs: an instruction, its eight bytes, and the forms that a filter program is made of.
// `off` and `imm` are the bits of the Rust's i16 and i32: a negative number is its two's complement.
ghost use Rattle.std.specs.Prelude.{◌≡◌, ◌+◌, ◌≤◌, length};
ghost use Rattle.ebpf.specs.Opcode.{ADD, SUB, MUL, DIV, OR, AND, LSH, RSH, XOR, MOV, WORD, HALF, BYTE};
ghost use Rattle.ebpf.specs.Opcode.{JMP, JMP32, JEQ, JNE, JGT, JGE, JLT, JLE, JSET};
ghost use Rattle.ebpf.specs.Insn.{new, dst_of, src_of, to_le_bytes, insn_at, fetch_at, stored_at};
ghost use Rattle.ebpf.specs.Insn.{alu64_reg, alu64_imm, alu32_imm, to_be, ldx};
ghost use Rattle.ebpf.specs.Insn.{jump_imm, jump_reg, jump_always, exit_insn};

// Instruction classes, the low three bits of the opcode.
pub const BPF_LDX: u8 = 0x01;

pub const BPF_ALU: u8 = 0x04;

pub const BPF_JMP: u8 = 0x05;

pub const BPF_JMP32: u8 = 0x06;

pub const BPF_ALU64: u8 = 0x07;

// Size and mode of a load.
pub const BPF_W: u8 = 0x00;

pub const BPF_H: u8 = 0x08;

pub const BPF_B: u8 = 0x10;

pub const BPF_MEM: u8 = 0x60;

// Source operand: the immediate or the source register.
pub const BPF_K: u8 = 0x00;

pub const BPF_X: u8 = 0x08;

// Arithmetic operations, the high half of the opcode.
pub const BPF_ADD: u8 = 0x00;

pub const BPF_SUB: u8 = 0x10;

pub const BPF_MUL: u8 = 0x20;

pub const BPF_DIV: u8 = 0x30;

pub const BPF_OR: u8 = 0x40;

pub const BPF_AND: u8 = 0x50;

pub const BPF_LSH: u8 = 0x60;

pub const BPF_RSH: u8 = 0x70;

pub const BPF_XOR: u8 = 0xa0;

pub const BPF_MOV: u8 = 0xb0;

pub const BPF_END: u8 = 0xd0;

pub const BPF_TO_BE: u8 = 0x08;

// Jump operations, the high half of the opcode.
pub const BPF_JA: u8 = 0x00;

pub const BPF_JEQ: u8 = 0x10;

pub const BPF_JGT: u8 = 0x20;

pub const BPF_JGE: u8 = 0x30;

pub const BPF_JSET: u8 = 0x40;

pub const BPF_JNE: u8 = 0x50;

pub const BPF_JLT: u8 = 0xa0;

pub const BPF_JLE: u8 = 0xb0;

pub const BPF_EXIT: u8 = 0x90;

// R0 is the return value, R1 the context, R2 and R3 the frame's start and end, R4 to R6 scratch.
pub const R0: u8 = 0;

pub const R1: u8 = 1;

pub const R2: u8 = 2;

pub const R3: u8 = 3;

pub const R4: u8 = 4;

pub const R5: u8 = 5;

pub const R6: u8 = 6;

// What an XDP program returns.
pub const XDP_DROP: u32 = 1;

pub const XDP_PASS: u32 = 2;

#[derive(Clone, Copy, PartialEq, Eq)]
pub struct Insn {
    pub code: u8,
    pub regs: u8,
    pub off: u16,
    pub imm: u32,
}

impl Insn {
    #[tactic(auto, using(crate::proofs::Halves::packed), unfolding(crate::specs::Insn::new))]
    pub fn new(code: u8, dst: u8, src: u8, off: u16, imm: u32) -> Self
        ensures { result ≡ new code dst src off imm }
    {
        Self {
            code,
            regs: (dst & 0xf) | ((src & 0xf) << 4),
            off,
            imm,
        }
    }

    // Destination register number, the low half of `regs`.
    #[tactic(auto, using(crate::proofs::Halves::low_half), unfolding(crate::specs::Insn::dst_of))]
    pub fn dst(self) -> u8
        ensures { result ≡ dst_of self }
    {
        self.regs & 0xf
    }

    // Source register number, the high half of `regs`.
    #[tactic(auto, using(crate::proofs::Halves::high_half), unfolding(crate::specs::Insn::src_of))]
    pub fn src(self) -> u8
        ensures { result ≡ src_of self }
    {
        (self.regs >> 4) & 0xf
    }

    // The constructors from here to `exit` stay one function each: the Rust's ebpf.rs has them by these names, but for `sub64_reg` and the seven comparisons of 32 bits, which are named like them.

    // `dst = src`, 64 bits.
    pub fn mov64_reg(dst: u8, src: u8) -> Self
        ensures { result ≡ alu64_reg MOV dst src }
    {
        Self::new(BPF_ALU64 | BPF_MOV | BPF_X, dst, src, 0, 0)
    }

    // `dst = imm`, the immediate widened with its sign.
    pub fn mov64_imm(dst: u8, imm: u32) -> Self
        ensures { result ≡ alu64_imm MOV dst imm }
    {
        Self::new(BPF_ALU64 | BPF_MOV | BPF_K, dst, 0, 0, imm)
    }

    // `dst += src`, 64 bits.
    pub fn add64_reg(dst: u8, src: u8) -> Self
        ensures { result ≡ alu64_reg ADD dst src }
    {
        Self::new(BPF_ALU64 | BPF_ADD | BPF_X, dst, src, 0, 0)
    }

    // `dst += imm`, the immediate widened with its sign.
    pub fn add64_imm(dst: u8, imm: u32) -> Self
        ensures { result ≡ alu64_imm ADD dst imm }
    {
        Self::new(BPF_ALU64 | BPF_ADD | BPF_K, dst, 0, 0, imm)
    }

    // `dst -= src`, 64 bits: the Rust's `emit_len` makes it by hand.
    pub fn sub64_reg(dst: u8, src: u8) -> Self
        ensures { result ≡ alu64_reg SUB dst src }
    {
        Self::new(BPF_ALU64 | BPF_SUB | BPF_X, dst, src, 0, 0)
    }

    // `dst &= imm`, 32 bits.
    pub fn and32_imm(dst: u8, imm: u32) -> Self
        ensures { result ≡ alu32_imm AND dst imm }
    {
        Self::new(BPF_ALU | BPF_AND | BPF_K, dst, 0, 0, imm)
    }

    // `dst |= imm`, 32 bits.
    pub fn or32_imm(dst: u8, imm: u32) -> Self
        ensures { result ≡ alu32_imm OR dst imm }
    {
        Self::new(BPF_ALU | BPF_OR | BPF_K, dst, 0, 0, imm)
    }

    // `dst ^= imm`, 32 bits.
    pub fn xor32_imm(dst: u8, imm: u32) -> Self
        ensures { result ≡ alu32_imm XOR dst imm }
    {
        Self::new(BPF_ALU | BPF_XOR | BPF_K, dst, 0, 0, imm)
    }

    // `dst += imm`, 32 bits.
    pub fn add32_imm(dst: u8, imm: u32) -> Self
        ensures { result ≡ alu32_imm ADD dst imm }
    {
        Self::new(BPF_ALU | BPF_ADD | BPF_K, dst, 0, 0, imm)
    }

    // `dst -= imm`, 32 bits.
    pub fn sub32_imm(dst: u8, imm: u32) -> Self
        ensures { result ≡ alu32_imm SUB dst imm }
    {
        Self::new(BPF_ALU | BPF_SUB | BPF_K, dst, 0, 0, imm)
    }

    // `dst *= imm`, 32 bits.
    pub fn mul32_imm(dst: u8, imm: u32) -> Self
        ensures { result ≡ alu32_imm MUL dst imm }
    {
        Self::new(BPF_ALU | BPF_MUL | BPF_K, dst, 0, 0, imm)
    }

    // `dst /= imm`, 32 bits.
    pub fn div32_imm(dst: u8, imm: u32) -> Self
        ensures { result ≡ alu32_imm DIV dst imm }
    {
        Self::new(BPF_ALU | BPF_DIV | BPF_K, dst, 0, 0, imm)
    }

    // `dst >>= imm`, 32 bits, logical.
    pub fn rsh32_imm(dst: u8, imm: u32) -> Self
        ensures { result ≡ alu32_imm RSH dst imm }
    {
        Self::new(BPF_ALU | BPF_RSH | BPF_K, dst, 0, 0, imm)
    }

    // `dst <<= imm`, 32 bits.
    pub fn lsh32_imm(dst: u8, imm: u32) -> Self
        ensures { result ≡ alu32_imm LSH dst imm }
    {
        Self::new(BPF_ALU | BPF_LSH | BPF_K, dst, 0, 0, imm)
    }

    // `dst = htobe16(dst)`, zero-extended.
    pub fn be16(dst: u8) -> Self
        ensures { result ≡ to_be 16 dst }
    {
        Self::new(BPF_ALU | BPF_END | BPF_TO_BE, dst, 0, 0, 16)
    }

    // `dst = htobe32(dst)`, zero-extended.
    pub fn be32(dst: u8) -> Self
        ensures { result ≡ to_be 32 dst }
    {
        Self::new(BPF_ALU | BPF_END | BPF_TO_BE, dst, 0, 0, 32)
    }

    // `dst = *(u8 *)(src + off)`, zero-extended.
    pub fn ldx_b(dst: u8, src: u8, off: u16) -> Self
        ensures { result ≡ ldx BYTE dst src off }
    {
        Self::new(BPF_LDX | BPF_MEM | BPF_B, dst, src, off, 0)
    }

    // `dst = *(u16 *)(src + off)`, zero-extended, in the host's byte order.
    pub fn ldx_h(dst: u8, src: u8, off: u16) -> Self
        ensures { result ≡ ldx HALF dst src off }
    {
        Self::new(BPF_LDX | BPF_MEM | BPF_H, dst, src, off, 0)
    }

    // `dst = *(u32 *)(src + off)`, zero-extended, in the host's byte order.
    pub fn ldx_w(dst: u8, src: u8, off: u16) -> Self
        ensures { result ≡ ldx WORD dst src off }
    {
        Self::new(BPF_LDX | BPF_MEM | BPF_W, dst, src, off, 0)
    }

    // `PC += off + 1`.
    pub fn ja(off: u16) -> Self
        ensures { result ≡ jump_always off }
    {
        Self::new(BPF_JMP | BPF_JA, 0, 0, off, 0)
    }

    // `if dst == imm: PC += off + 1`, 64 bits, the immediate widened with its sign.
    pub fn jeq_imm(dst: u8, imm: u32, off: u16) -> Self
        ensures { result ≡ jump_imm JMP JEQ dst imm off }
    {
        Self::new(BPF_JMP | BPF_JEQ | BPF_K, dst, 0, off, imm)
    }

    // `if dst != imm: PC += off + 1`, 64 bits, the immediate widened with its sign.
    pub fn jne_imm(dst: u8, imm: u32, off: u16) -> Self
        ensures { result ≡ jump_imm JMP JNE dst imm off }
    {
        Self::new(BPF_JMP | BPF_JNE | BPF_K, dst, 0, off, imm)
    }

    // `if dst > imm: PC += off + 1`, 64 bits, the immediate widened with its sign.
    pub fn jgt_imm(dst: u8, imm: u32, off: u16) -> Self
        ensures { result ≡ jump_imm JMP JGT dst imm off }
    {
        Self::new(BPF_JMP | BPF_JGT | BPF_K, dst, 0, off, imm)
    }

    // `if dst >= imm: PC += off + 1`, 64 bits, the immediate widened with its sign.
    pub fn jge_imm(dst: u8, imm: u32, off: u16) -> Self
        ensures { result ≡ jump_imm JMP JGE dst imm off }
    {
        Self::new(BPF_JMP | BPF_JGE | BPF_K, dst, 0, off, imm)
    }

    // `if dst < imm: PC += off + 1`, 64 bits, the immediate widened with its sign.
    pub fn jlt_imm(dst: u8, imm: u32, off: u16) -> Self
        ensures { result ≡ jump_imm JMP JLT dst imm off }
    {
        Self::new(BPF_JMP | BPF_JLT | BPF_K, dst, 0, off, imm)
    }

    // `if dst <= imm: PC += off + 1`, 64 bits, the immediate widened with its sign.
    pub fn jle_imm(dst: u8, imm: u32, off: u16) -> Self
        ensures { result ≡ jump_imm JMP JLE dst imm off }
    {
        Self::new(BPF_JMP | BPF_JLE | BPF_K, dst, 0, off, imm)
    }

    // `if dst & imm != 0: PC += off + 1`, 64 bits, the immediate widened with its sign.
    pub fn jset_imm(dst: u8, imm: u32, off: u16) -> Self
        ensures { result ≡ jump_imm JMP JSET dst imm off }
    {
        Self::new(BPF_JMP | BPF_JSET | BPF_K, dst, 0, off, imm)
    }

    // `if dst == imm: PC += off + 1`, the low 32 bits.
    pub fn jeq32_imm(dst: u8, imm: u32, off: u16) -> Self
        ensures { result ≡ jump_imm JMP32 JEQ dst imm off }
    {
        Self::new(BPF_JMP32 | BPF_JEQ | BPF_K, dst, 0, off, imm)
    }

    // `if dst != imm: PC += off + 1`, the low 32 bits.
    pub fn jne32_imm(dst: u8, imm: u32, off: u16) -> Self
        ensures { result ≡ jump_imm JMP32 JNE dst imm off }
    {
        Self::new(BPF_JMP32 | BPF_JNE | BPF_K, dst, 0, off, imm)
    }

    // `if dst > imm: PC += off + 1`, the low 32 bits.
    pub fn jgt32_imm(dst: u8, imm: u32, off: u16) -> Self
        ensures { result ≡ jump_imm JMP32 JGT dst imm off }
    {
        Self::new(BPF_JMP32 | BPF_JGT | BPF_K, dst, 0, off, imm)
    }

    // `if dst >= imm: PC += off + 1`, the low 32 bits.
    pub fn jge32_imm(dst: u8, imm: u32, off: u16) -> Self
        ensures { result ≡ jump_imm JMP32 JGE dst imm off }
    {
        Self::new(BPF_JMP32 | BPF_JGE | BPF_K, dst, 0, off, imm)
    }

    // `if dst < imm: PC += off + 1`, the low 32 bits.
    pub fn jlt32_imm(dst: u8, imm: u32, off: u16) -> Self
        ensures { result ≡ jump_imm JMP32 JLT dst imm off }
    {
        Self::new(BPF_JMP32 | BPF_JLT | BPF_K, dst, 0, off, imm)
    }

    // `if dst <= imm: PC += off + 1`, the low 32 bits.
    pub fn jle32_imm(dst: u8, imm: u32, off: u16) -> Self
        ensures { result ≡ jump_imm JMP32 JLE dst imm off }
    {
        Self::new(BPF_JMP32 | BPF_JLE | BPF_K, dst, 0, off, imm)
    }

    // `if dst & imm != 0: PC += off + 1`, the low 32 bits.
    pub fn jset32_imm(dst: u8, imm: u32, off: u16) -> Self
        ensures { result ≡ jump_imm JMP32 JSET dst imm off }
    {
        Self::new(BPF_JMP32 | BPF_JSET | BPF_K, dst, 0, off, imm)
    }

    // `if dst > src: PC += off + 1`, 64 bits.
    pub fn jgt_reg(dst: u8, src: u8, off: u16) -> Self
        ensures { result ≡ jump_reg JGT dst src off }
    {
        Self::new(BPF_JMP | BPF_JGT | BPF_X, dst, src, off, 0)
    }

    // Ends the program with what R0 holds.
    pub fn exit() -> Self
        ensures { result ≡ exit_insn }
    {
        Self::new(BPF_JMP | BPF_EXIT, 0, 0, 0, 0)
    }

    // The instruction whose eight bytes start at `at`.
    #[tactic(auto, unfolding(crate::specs::Insn::insn_at))]
    pub(crate) fn at(s: &[u8], at: usize) -> Self
        requires { at + 8 ≤ length s.now }
        ensures { result ≡ insn_at s.now at }
    {
        Self {
            code: s[at],
            regs: s[at + 1],
            off: u16::from_le_bytes([s[at + 2], s[at + 3]]),
            imm: u32::from_le_bytes([s[at + 4], s[at + 5], s[at + 6], s[at + 7]]),
        }
    }

    // The eight bytes, little-endian.
    #[tactic(auto, unfolding(crate::specs::Insn::to_le_bytes))]
    pub fn to_le_bytes(self) -> [u8; 8]
        ensures { result ≡ to_le_bytes self }
    {
        let [o0, o1] = self.off.to_le_bytes();
        let [i0, i1, i2, i3] = self.imm.to_le_bytes();
        [self.code, self.regs, o0, o1, i0, i1, i2, i3]
    }

    // Writes the eight bytes into the part of `out` that starts at `at`; where they do not fit, nothing.
    #[tactic(auto, unfolding(crate::specs::Insn::stored_at))]
    pub fn store(self, out: &mut [u8], at: usize)
        ensures { out.new ≡ stored_at out.old at self }
    {
        let len = out.len();
        let Some(end) = at.checked_add(8) else {
            return;
        };
        if len < end {
            return;
        }
        out[at..end].copy_from_slice(&self.to_le_bytes());
    }

    // Reads the eight bytes of the part of `s` that starts at `at`.
    #[tactic(auto, unfolding(crate::specs::Insn::fetch_at))]
    pub fn fetch(s: &[u8], at: usize) -> Option<Self>
        ensures { result ≡ fetch_at s.now at }
    {
        if s.len() < 8 || s.len() - 8 < at {
            return None;
        }
        Some(Self::at(s, at))
    }
}
