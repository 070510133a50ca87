// The library's functions for C and Rust programs: measure, compile, evaluate, run, push the Nots down and count a capture over slices and numbers. Each returns a plain
// status number and writes the numbers beside it through references; `bromaveluth_c` exports them to C.
#![tactic(auto)]

ghost use Rattle.std.specs.Prelude.{◌≡◌, length};
ghost use Rattle.refusals.specs.Refusal.{number_of, told};
ghost use Rattle.ebpf.specs.Run.{run_of};
ghost use Rattle.meaning.specs.Evaluate.{evaluate_of};
ghost use Rattle.generator.specs.Compile.{outcome_of, answer_of, output_after, work_after};
ghost use Rattle.nots.specs.Push.{new_sheet, push_of, sheet_after};
ghost use Rattle.savefile.specs.Savefile.{header_of, opened_of};
ghost use Rattle.capture.specs.Capture.{part_of, captured_of, output_in, work_in};
ghost use Rattle.bromaveluth.specs.Boundary.{status, compiled_number, verdict_number, opened_number};
ghost use Rattle.bromaveluth.specs.Boundary.{pushed_number};
ghost use Rattle.bromaveluth.specs.Boundary.{passed_count, dropped_count, cut_count, captured_number};
ghost use Rattle.bromaveluth.specs.Boundary.{asked_of, asked_tokens, asked_output, asked_work, asked_number, version};

use capture::{Counted, capture, capture_part};
use checks::measure::{Measured, measure};
use ebpf::run::run;
use generator::compile;
use meaning::evaluate::evaluate;
use nots::push_nots;
use refusals::{Reason, Refusal};
use savefile::open_file;

// Version 0.1.0: 1,000,000 x major + 1,000 x minor + patch.
const VERSION: u32 = 1000;

// The archive's version, to be compared with the header's.
pub fn bromaveluth_version() -> u32
    ensures { result ≡ version }
{
    VERSION
}

// Refusals 1 to 6, or the sheet's counts and L.
fn asked(sheet: &[u8], link: u8, mode: u8) -> Result<Measured, Refusal>
    ensures { told result ≡ asked_of sheet.now link mode }
{
    if 1 < mode {
        return Err(Reason::LinkOrMode.at(0));
    }
    measure(sheet, link)
}

// The refusal's number, and its place in `answer`.
fn refuse(refusal: Refusal, answer: &mut u64) -> u8
    ensures value { result ≡ number_of refusal.reason }
    ensures answer_after { answer.new ≡ refusal.place }
{
    *answer = refusal.place as u64;
    refusal.reason.number()
}

// 0, L in `answer`, and beside it the tokens and what `compile` asks of output and work; or the refusal, three zeros, and its place.
pub fn bromaveluth_measure(
    sheet: &[u8],
    link: u8,
    mode: u8,
    tokens: &mut u64,
    output: &mut u64,
    work: &mut u64,
    answer: &mut u64,
) -> u8
    ensures value { result ≡ status (asked_of sheet.now link mode) }
    ensures tokens_after { tokens.new ≡ asked_tokens (asked_of sheet.now link mode) }
    ensures output_after { output.new ≡ asked_output (asked_of sheet.now link mode) }
    ensures work_after { work.new ≡ asked_work (asked_of sheet.now link mode) }
    ensures answer_after { answer.new ≡ asked_number (asked_of sheet.now link mode) }
{
    match asked(sheet, link, mode) {
        Ok(Measured { counts, length }) => {
            *tokens = counts.tokens as u64;
            *output = 8 * length;
            *work = length + 8 * (counts.tokens as u64);
            *answer = length;
            0
        }
        Err(refusal) => {
            *tokens = 0;
            *output = 0;
            *work = 0;
            refuse(refusal, answer)
        }
    }
}

// 0 and the program's length L in `answer`, or the refusal and its place there.
pub fn bromaveluth_compile(
    sheet: &[u8],
    link: u8,
    mode: u8,
    output: &mut [u8],
    work: &mut [u32],
    answer: &mut u64,
) -> u8
    ensures value { result ≡ status (answer_of (outcome_of sheet.now link mode (length output.old) (length work.old))) }
    ensures answer_after { answer.new ≡ compiled_number (answer_of (outcome_of sheet.now link mode (length output.old) (length work.old))) }
    ensures output_after { output.new ≡ output_after (outcome_of sheet.now link mode (length output.old) (length work.old)) output.old }
    ensures work_after { work.new ≡ work_after (outcome_of sheet.now link mode (length output.old) (length work.old)) work.old }
{
    match compile(sheet, link, mode, output, work) {
        Ok(length) => {
            *answer = length as u64;
            0
        }
        Err(refusal) => refuse(refusal, answer),
    }
}

// 0 and 1 in `answer` if the expression holds on the frame, 0 if not; or the refusal and its place there.
pub fn bromaveluth_evaluate(sheet: &[u8], link: u8, frame: &[u8], answer: &mut u64) -> u8
    ensures value { result ≡ status (evaluate_of sheet.now link frame.now) }
    ensures answer_after { answer.new ≡ verdict_number (evaluate_of sheet.now link frame.now) }
{
    match evaluate(sheet, link, frame) {
        Ok(holds) => {
            *answer = holds as u64;
            0
        }
        Err(refusal) => refuse(refusal, answer),
    }
}

// The machine's stop, with R0 and the steps carried out beside it.
pub fn bromaveluth_run(
    program: &[u8],
    frame: &[u8],
    start: u64,
    budget: u64,
    r0: &mut u64,
    steps: &mut u64,
) -> u8
    ensures value { result ≡ (run_of program.now frame.now start budget).stop }
    ensures r0_after { r0.new ≡ (run_of program.now frame.now start budget).r0 }
    ensures steps_after { steps.new ≡ (run_of program.now frame.now start budget).steps }
{
    let end = run(program, frame, start, budget);
    *r0 = end.r0;
    *steps = end.steps;
    end.stop
}

// 0 and in `answer` the new sheet's length in bytes, or the refusal and its place there.
pub fn bromaveluth_nots(sheet: &[u8], output: &mut [u8], answer: &mut u64) -> u8
    ensures value { result ≡ status (push_of sheet.now (length output.old)) }
    ensures answer_after { answer.new ≡ pushed_number (push_of sheet.now (length output.old)) }
    ensures output_after { output.new ≡ sheet_after (push_of sheet.now (length output.old)) (new_sheet sheet.now) output.old }
{
    match push_nots(sheet, output) {
        Ok(bytes) => {
            *answer = bytes as u64;
            0
        }
        Err(refusal) => refuse(refusal, answer),
    }
}

// 0 and in `answer` the link that the savefile picks; or 40 to 43, and there the byte where what is refused begins.
pub fn bromaveluth_capture_open(file: &[u8], answer: &mut u64) -> u8
    ensures value { result ≡ status (opened_of file.now) }
    ensures answer_after { answer.new ≡ opened_number (opened_of file.now) }
{
    match open_file(file) {
        Ok(header) => {
            *answer = header.link as u64;
            0
        }
        Err(refusal) => refuse(refusal, answer),
    }
}

// The counts, zero where refused, and beside them where to go on, or the refusal's place.
fn tell(
    counted: Result<Counted, Refusal>,
    passed: &mut u64,
    dropped: &mut u64,
    cut: &mut u64,
    answer: &mut u64,
) -> u8
    ensures value { result ≡ status (told counted) }
    ensures passed_after { passed.new ≡ passed_count (told counted) }
    ensures dropped_after { dropped.new ≡ dropped_count (told counted) }
    ensures cut_after { cut.new ≡ cut_count (told counted) }
    ensures answer_after { answer.new ≡ captured_number (told counted) }
{
    match counted {
        Ok(Counted { tally, next }) => {
            *passed = tally.passed;
            *dropped = tally.dropped;
            *cut = tally.cut;
            *answer = next as u64;
            0
        }
        Err(refusal) => {
            *passed = 0;
            *dropped = 0;
            *cut = 0;
            refuse(refusal, answer)
        }
    }
}

// 0, the three counts, and in `answer` the file's length; or the refusal, counts of zero, and its place there.
pub fn bromaveluth_capture(
    file: &[u8],
    sheet: &[u8],
    mode: u8,
    output: &mut [u8],
    work: &mut [u32],
    passed: &mut u64,
    dropped: &mut u64,
    cut: &mut u64,
    answer: &mut u64,
) -> u8
    ensures value { result ≡ status (captured_of file.now sheet.now mode (length output.old) (length work.old)) }
    ensures passed_after { passed.new ≡ passed_count (captured_of file.now sheet.now mode (length output.old) (length work.old)) }
    ensures dropped_after { dropped.new ≡ dropped_count (captured_of file.now sheet.now mode (length output.old) (length work.old)) }
    ensures cut_after { cut.new ≡ cut_count (captured_of file.now sheet.now mode (length output.old) (length work.old)) }
    ensures answer_after { answer.new ≡ captured_number (captured_of file.now sheet.now mode (length output.old) (length work.old)) }
    ensures output_after { output.new ≡ output_in (opened_of file.now) sheet.now mode (length work.old) output.old }
    ensures work_after { work.new ≡ work_in (opened_of file.now) sheet.now mode (length output.old) work.old }
{
    tell(
        capture(file, sheet, mode, output, work),
        passed,
        dropped,
        cut,
        answer,
    )
}

// The same of at most `most` records from byte `at` on; `answer` is then where to go on.
pub fn bromaveluth_capture_part(
    file: &[u8],
    sheet: &[u8],
    mode: u8,
    output: &mut [u8],
    work: &mut [u32],
    at: u64,
    most: u64,
    passed: &mut u64,
    dropped: &mut u64,
    cut: &mut u64,
    answer: &mut u64,
) -> u8
    ensures value { result ≡ status (part_of file.now sheet.now mode (length output.old) (length work.old) at most) }
    ensures passed_after { passed.new ≡ passed_count (part_of file.now sheet.now mode (length output.old) (length work.old) at most) }
    ensures dropped_after { dropped.new ≡ dropped_count (part_of file.now sheet.now mode (length output.old) (length work.old) at most) }
    ensures cut_after { cut.new ≡ cut_count (part_of file.now sheet.now mode (length output.old) (length work.old) at most) }
    ensures answer_after { answer.new ≡ captured_number (part_of file.now sheet.now mode (length output.old) (length work.old) at most) }
    ensures output_after { output.new ≡ output_in (header_of file.now) sheet.now mode (length work.old) output.old }
    ensures work_after { work.new ≡ work_in (header_of file.now) sheet.now mode (length output.old) work.old }
{
    tell(
        capture_part(file, sheet, mode, output, work, at as usize, most),
        passed,
        dropped,
        cut,
        answer,
    )
}
