// An instruction where it stands in the program.
ghost use Rattle.std.specs.Prelude.{◌≡◌, ◌+◌, ◌≤◌, length};
ghost use Rattle.ebpf.specs.Insn.{insn_at, dst_of, src_of};

// The instruction at a byte of the program. Each field is read where it is asked for: with an `Insn` read whole `run_sure` takes 20.4 instructions
// a step, with this 18.1, and the goal is 20 (docs/BENCHMARKS.md).
#[derive(Clone, Copy)]
pub(crate) struct Place<'a> {
    pub(crate) program: &'a [u8],
    pub(crate) at: usize,
    ghost inside: { at + 8 ≤ length program.now },
}

impl Place<'_> {
    #[tactic(auto, unfolding(crate::specs::Insn::insn_at))]
    pub(crate) fn code(self) -> u8
        ensures { result ≡ (insn_at self.entry.program.now self.entry.at).code }
    {
        self.program[self.at]
    }

    #[tactic(auto, unfolding(crate::specs::Insn::insn_at))]
    pub(crate) fn regs(self) -> u8
        ensures { result ≡ (insn_at self.entry.program.now self.entry.at).regs }
    {
        self.program[self.at + 1]
    }

    #[tactic(auto, unfolding(crate::specs::Insn::dst_of))]
    pub(crate) fn dst(self) -> u8
        ensures { result ≡ dst_of (insn_at self.entry.program.now self.entry.at) }
    {
        self.regs() % 16
    }

    #[tactic(auto, unfolding(crate::specs::Insn::src_of))]
    pub(crate) fn src(self) -> u8
        ensures { result ≡ src_of (insn_at self.entry.program.now self.entry.at) }
    {
        self.regs() / 16
    }

    #[tactic(auto, unfolding(crate::specs::Insn::insn_at))]
    pub(crate) fn off(self) -> u16
        ensures { result ≡ (insn_at self.entry.program.now self.entry.at).off }
    {
        let (s, k) = (self.program, self.at + 2);
        u16::from_le_bytes([s[k], s[k + 1]])
    }

    #[tactic(auto, unfolding(crate::specs::Insn::insn_at))]
    pub(crate) fn imm(self) -> u32
        ensures { result ≡ (insn_at self.entry.program.now self.entry.at).imm }
    {
        let (s, k) = (self.program, self.at + 4);
        u32::from_le_bytes([s[k], s[k + 1], s[k + 2], s[k + 3]])
    }
}
