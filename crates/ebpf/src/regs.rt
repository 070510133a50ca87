// The registers R0 to R6. R1 is the context: it has no number, and its two places are never used.
ghost use Rattle.std.specs.Prelude.{◌≡◌};
ghost use Rattle.ebpf.specs.Regs.{known_of, value_of, with_of};

// Two arrays stay, not one of options: `step` promises what becomes of any values, also of registers not yet written, and `run_sure` keeps no marks.
#[derive(Clone, Copy, PartialEq, Eq)]
pub struct Regs {
    pub values: [u64; 7],
    pub written: [bool; 7],
}

impl Regs {
    // Whether register `i` has been written.
    #[tactic(auto, unfolding(crate::specs::Regs::known_of))]
    pub(crate) fn known(&self, i: u8) -> bool
        ensures { result ≡ known_of self.now i }
    {
        self.written.get(i as usize).copied().unwrap_or(false)
    }

    // What register `i` holds.
    #[tactic(auto, unfolding(crate::specs::Regs::value_of))]
    pub(crate) fn value(&self, i: u8) -> u64
        ensures { result ≡ value_of self.now i }
    {
        self.values.get(i as usize).copied().unwrap_or(0)
    }

    // Register `i` has now been written and holds `v`.
    #[tactic(auto, unfolding(crate::specs::Regs::with_of))]
    pub(crate) fn write(&mut self, i: u8, v: u64)
        ensures { self.new ≡ with_of self.old i v }
    {
        let k = i as usize;
        if k < 7 {
            self.values[k] = v;
            self.written[k] = true;
        }
    }
}
