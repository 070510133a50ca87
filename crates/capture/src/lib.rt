// One compiled filter over a capture from the field (document 02, A1).
#![tactic(auto)]

ghost use Rattle.std.specs.Prelude.{◌≡◌, ◌+◌, ◌≤◌, ◌<◌, ◌^◌, length};
ghost use Rattle.refusals.specs.Refusal.{told};
ghost use Rattle.savefile.specs.Savefile.{walk_of, header_of, opened_of};
ghost use Rattle.generator.specs.Compile.{outcome_of, output_after, work_after};
ghost use Rattle.capture.specs.Capture.{Always, rec_at, added, judged_walk, judged_from, part_of, captured_of, output_in, work_in};

use ebpf::sure::run_sure;
use generator::compile;
use refusals::Refusal;
use savefile::{ByteOrder, Header, Record, next_of, open_file, open_header};

// How many records of each class there are so far.
#[derive(Clone, Copy, PartialEq, Eq)]
pub struct Tally {
    pub passed: u64,
    pub dropped: u64,
    pub cut: u64,
}

// The counts, and the place behind the last record that was judged.
#[derive(Clone, Copy, PartialEq, Eq)]
pub struct Counted {
    pub tally: Tally,
    pub next: usize,
}

impl Tally {
    // The record whose captured bytes start at `from`, counted in its class.
    fn with(self, file: &[u8], program: &[u8], from: usize, found: Record) -> Tally
        requires captured_in_bounds { (from + found.captured ≤ length file.now) × (found.captured ≤ 16384) }
        requires always { Always program.now }
        requires passed_bound { (self.passed + 1 < 2 ^ 64) × (self.dropped + 1 < 2 ^ 64) × (self.cut + 1 < 2 ^ 64) }
        ensures { result ≡ added program.now file.now (rec_at from found) self }
    {
        if found.captured < found.original {
            return Tally {
                cut: self.cut + 1,
                ..self
            };
        }
        let end = from + found.captured as usize;
        if run_sure(program, &file[from..end]) == 2 {
            Tally {
                passed: self.passed + 1,
                ..self
            }
        } else {
            Tally {
                dropped: self.dropped + 1,
                ..self
            }
        }
    }
}

// At most `most` records from `from` on, up to the file's end or the first fault.
fn judge_records(
    file: &[u8],
    program: &[u8],
    order: ByteOrder,
    from: usize,
    most: u64,
) -> Result<Counted, Refusal>
    requires { Always program.now }
    ensures { told result ≡ judged_walk program.now file.now (walk_of most order file.now from) }
{
    let mut tally = Tally {
        passed: 0,
        dropped: 0,
        cut: 0,
    };
    let mut at = from;
    for _ in 0..most {
        if file.len() <= at {
            break;
        }
        let record = next_of(file, at, order)?;
        tally = tally.with(file, program, at + 16, record);
        at += 16 + record.captured as usize;
    }
    Ok(Counted { tally, next: at })
}

// The sheet compiled for the file's link, and its program run on the records.
fn judge_from(
    header: Header,
    file: &[u8],
    sheet: &[u8],
    mode: u8,
    output: &mut [u8],
    work: &mut [u32],
    at: usize,
    most: u64,
) -> Result<Counted, Refusal>
    ensures value { told result ≡ judged_from header file.now sheet.now mode (length output.old) (length work.old) at most }
    ensures output_after { output.new ≡ output_after (outcome_of sheet.now header.link mode (length output.old) (length work.old)) output.old }
    ensures work_after { work.new ≡ work_after (outcome_of sheet.now header.link mode (length output.old) (length work.old)) work.old }
{
    let length = compile(sheet, header.link, mode, output, work)?;
    let program = &output[..8 * length];
    judge_records(file, program, header.order, at, most)
}

// Any part of any file: its header, then the sheet, then at most `most` records from byte `at` on.
pub fn capture_part(
    file: &[u8],
    sheet: &[u8],
    mode: u8,
    output: &mut [u8],
    work: &mut [u32],
    at: usize,
    most: u64,
) -> Result<Counted, Refusal>
    ensures value { told result ≡ part_of file.now sheet.now mode (length output.old) (length work.old) at most }
    ensures output_after { output.new ≡ output_in (header_of file.now) sheet.now mode (length work.old) output.old }
    ensures work_after { work.new ≡ work_in (header_of file.now) sheet.now mode (length output.old) work.old }
{
    let header = open_header(file)?;
    judge_from(header, file, sheet, mode, output, work, at, most)
}

// Any file, any sheet, any mode, any output and work.
pub fn capture(
    file: &[u8],
    sheet: &[u8],
    mode: u8,
    output: &mut [u8],
    work: &mut [u32],
) -> Result<Counted, Refusal>
    ensures value { told result ≡ captured_of file.now sheet.now mode (length output.old) (length work.old) }
    ensures output_after { output.new ≡ output_in (opened_of file.now) sheet.now mode (length work.old) output.old }
    ensures work_after { work.new ≡ work_in (opened_of file.now) sheet.now mode (length output.old) work.old }
{
    let header = open_file(file)?;
    let most = file.len() as u64;
    judge_from(header, file, sheet, mode, output, work, 24, most)
}
