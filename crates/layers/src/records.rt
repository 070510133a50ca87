// The program as a lent run of records.
ghost use Rattle.std.specs.Prelude.{◌≡◌, length};
ghost use Rattle.layers.specs.Records.{plan_of, filled_run, found_at, empty_run};

use ebpf::insn::Insn;

// A record with nothing in it.
const EMPTY: Insn = Insn {
    code: 0,
    regs: 0,
    off: 0,
    imm: 0,
};

// Why a run is not filled: the bytes are no whole records, or more than it has.
#[derive(Clone, Copy, PartialEq, Eq)]
pub enum NotFilled {
    NotWhole,
    TooFew,
}

// How many records of a run of `m` are filled from `n` bytes.
#[tactic(auto, unfolding(crate::specs::Records::plan_of))]
fn plan(n: usize, m: usize) -> Result<usize, NotFilled>
    ensures { result ≡ plan_of n m }
{
    if n % 8 != 0 {
        return Err(NotFilled::NotWhole);
    }
    if n / 8 > m {
        return Err(NotFilled::TooFew);
    }
    Ok(n / 8)
}

// The run is filled from the bytes, one record for each eight. Its records past these, and after a refusal all, are left as they are.
pub fn fill_records(bytes: &[u8], out: &mut [Insn]) -> Result<usize, NotFilled>
    ensures { (result ≡ plan_of (length bytes.now) (length out.old)) × (out.new ≡ filled_run bytes.now out.old) }
{
    let n = plan(bytes.len(), out.len())?;
    for k in 0..n {
        out[k] = Insn::fetch(bytes, k * 8).unwrap_or(EMPTY);
    }
    Ok(n)
}

// The record with number `k`.
#[tactic(auto, unfolding(crate::specs::Records::found_at))]
pub fn record_at(records: &[Insn], k: usize) -> Option<Insn>
    ensures { result ≡ found_at records.now k }
{
    records.get(k).copied()
}

// The record with number `k`, by way of an empty run of sixteen that is lent: callers need no `&mut [Insn]`. A refusal leaves the run empty.
pub fn record_by_run(bytes: &[u8], k: usize) -> Option<Insn>
    ensures { result ≡ found_at (filled_run bytes.now empty_run) k }
{
    let mut run = [EMPTY; 16];
    let _filled = fill_records(bytes, &mut run);
    record_at(&run, k)
}
