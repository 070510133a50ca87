// The archive that C and Rust programs link: each function is the library's of the same name, by C's calling convention;
// bindings/c/bromaveluth.h declares them in C.
#![tactic(auto)]

ghost use Rattle.std.specs.Prelude.{◌≡◌, length};
ghost use Rattle.ebpf.specs.Run.{run_of};
ghost use Rattle.meaning.specs.Evaluate.{evaluate_of};
ghost use Rattle.generator.specs.Compile.{outcome_of, answer_of, output_after, work_after};
ghost use Rattle.nots.specs.Push.{new_sheet, push_of, sheet_after};
ghost use Rattle.savefile.specs.Savefile.{header_of, opened_of};
ghost use Rattle.capture.specs.Capture.{part_of, captured_of, output_in, work_in};
ghost use Rattle.bromaveluth.specs.Boundary.{status, compiled_number, verdict_number, opened_number};
ghost use Rattle.bromaveluth.specs.Boundary.{pushed_number};
ghost use Rattle.bromaveluth.specs.Boundary.{passed_count, dropped_count, cut_count, captured_number};
ghost use Rattle.bromaveluth.specs.Boundary.{asked_of, asked_tokens, asked_output, asked_work, asked_number, version};

// The archive's version, to be compared with the header's.
#[unsafe(no_mangle)]
pub extern "C" fn bromaveluth_version() -> u32
    ensures { result ≡ version }
{
    bromaveluth::bromaveluth_version()
}

// 0, L in `answer`, and beside it the tokens and what `compile` asks of output and work; or the refusal, three zeros, and its place.
#[unsafe(no_mangle)]
pub extern "C" fn bromaveluth_measure(
    sheet: &[u8],
    link: u8,
    mode: u8,
    tokens: &mut u64,
    output: &mut u64,
    work: &mut u64,
    answer: &mut u64,
) -> u8
    ensures value { result ≡ status (asked_of sheet.now link mode) }
    ensures tokens_after { tokens.new ≡ asked_tokens (asked_of sheet.now link mode) }
    ensures output_after { output.new ≡ asked_output (asked_of sheet.now link mode) }
    ensures work_after { work.new ≡ asked_work (asked_of sheet.now link mode) }
    ensures answer_after { answer.new ≡ asked_number (asked_of sheet.now link mode) }
{
    bromaveluth::bromaveluth_measure(sheet, link, mode, tokens, output, work, answer)
}

// 0 and the program's length L in `answer`, or the refusal and its place there.
#[unsafe(no_mangle)]
pub extern "C" fn bromaveluth_compile(
    sheet: &[u8],
    link: u8,
    mode: u8,
    output: &mut [u8],
    work: &mut [u32],
    answer: &mut u64,
) -> u8
    ensures value { result ≡ status (answer_of (outcome_of sheet.now link mode (length output.old) (length work.old))) }
    ensures answer_after { answer.new ≡ compiled_number (answer_of (outcome_of sheet.now link mode (length output.old) (length work.old))) }
    ensures output_after { output.new ≡ output_after (outcome_of sheet.now link mode (length output.old) (length work.old)) output.old }
    ensures work_after { work.new ≡ work_after (outcome_of sheet.now link mode (length output.old) (length work.old)) work.old }
{
    bromaveluth::bromaveluth_compile(sheet, link, mode, output, work, answer)
}

// 0 and 1 in `answer` if the expression holds on the frame, 0 if not; or the refusal and its place there.
#[unsafe(no_mangle)]
pub extern "C" fn bromaveluth_evaluate(sheet: &[u8], link: u8, frame: &[u8], answer: &mut u64) -> u8
    ensures value { result ≡ status (evaluate_of sheet.now link frame.now) }
    ensures answer_after { answer.new ≡ verdict_number (evaluate_of sheet.now link frame.now) }
{
    bromaveluth::bromaveluth_evaluate(sheet, link, frame, answer)
}

// The machine's stop, with R0 and the steps carried out beside it.
#[unsafe(no_mangle)]
pub extern "C" fn bromaveluth_run(
    program: &[u8],
    frame: &[u8],
    start: u64,
    budget: u64,
    r0: &mut u64,
    steps: &mut u64,
) -> u8
    ensures value { result ≡ (run_of program.now frame.now start budget).stop }
    ensures r0_after { r0.new ≡ (run_of program.now frame.now start budget).r0 }
    ensures steps_after { steps.new ≡ (run_of program.now frame.now start budget).steps }
{
    bromaveluth::bromaveluth_run(program, frame, start, budget, r0, steps)
}

// 0 and in `answer` the new sheet's length in bytes, or the refusal and its place there.
#[unsafe(no_mangle)]
pub extern "C" fn bromaveluth_nots(sheet: &[u8], output: &mut [u8], answer: &mut u64) -> u8
    ensures value { result ≡ status (push_of sheet.now (length output.old)) }
    ensures answer_after { answer.new ≡ pushed_number (push_of sheet.now (length output.old)) }
    ensures output_after { output.new ≡ sheet_after (push_of sheet.now (length output.old)) (new_sheet sheet.now) output.old }
{
    bromaveluth::bromaveluth_nots(sheet, output, answer)
}

// 0 and in `answer` the link that the savefile picks; or 40 to 43, and there the byte where what is refused begins.
#[unsafe(no_mangle)]
pub extern "C" fn bromaveluth_capture_open(file: &[u8], answer: &mut u64) -> u8
    ensures value { result ≡ status (opened_of file.now) }
    ensures answer_after { answer.new ≡ opened_number (opened_of file.now) }
{
    bromaveluth::bromaveluth_capture_open(file, answer)
}

// 0, the three counts, and in `answer` the file's length; or the refusal, counts of zero, and its place there.
#[unsafe(no_mangle)]
pub extern "C" fn bromaveluth_capture(
    file: &[u8],
    sheet: &[u8],
    mode: u8,
    output: &mut [u8],
    work: &mut [u32],
    passed: &mut u64,
    dropped: &mut u64,
    cut: &mut u64,
    answer: &mut u64,
) -> u8
    ensures value { result ≡ status (captured_of file.now sheet.now mode (length output.old) (length work.old)) }
    ensures passed_after { passed.new ≡ passed_count (captured_of file.now sheet.now mode (length output.old) (length work.old)) }
    ensures dropped_after { dropped.new ≡ dropped_count (captured_of file.now sheet.now mode (length output.old) (length work.old)) }
    ensures cut_after { cut.new ≡ cut_count (captured_of file.now sheet.now mode (length output.old) (length work.old)) }
    ensures answer_after { answer.new ≡ captured_number (captured_of file.now sheet.now mode (length output.old) (length work.old)) }
    ensures output_after { output.new ≡ output_in (opened_of file.now) sheet.now mode (length work.old) output.old }
    ensures work_after { work.new ≡ work_in (opened_of file.now) sheet.now mode (length output.old) work.old }
{
    bromaveluth::bromaveluth_capture(
        file, sheet, mode, output, work, passed, dropped, cut, answer,
    )
}

// The same of at most `most` records from byte `at` on; `answer` is then where to go on.
#[unsafe(no_mangle)]
pub extern "C" fn bromaveluth_capture_part(
    file: &[u8],
    sheet: &[u8],
    mode: u8,
    output: &mut [u8],
    work: &mut [u32],
    at: u64,
    most: u64,
    passed: &mut u64,
    dropped: &mut u64,
    cut: &mut u64,
    answer: &mut u64,
) -> u8
    ensures value { result ≡ status (part_of file.now sheet.now mode (length output.old) (length work.old) at most) }
    ensures passed_after { passed.new ≡ passed_count (part_of file.now sheet.now mode (length output.old) (length work.old) at most) }
    ensures dropped_after { dropped.new ≡ dropped_count (part_of file.now sheet.now mode (length output.old) (length work.old) at most) }
    ensures cut_after { cut.new ≡ cut_count (part_of file.now sheet.now mode (length output.old) (length work.old) at most) }
    ensures answer_after { answer.new ≡ captured_number (part_of file.now sheet.now mode (length output.old) (length work.old) at most) }
    ensures output_after { output.new ≡ output_in (header_of file.now) sheet.now mode (length work.old) output.old }
    ensures work_after { work.new ≡ work_in (header_of file.now) sheet.now mode (length output.old) work.old }
{
    bromaveluth::bromaveluth_capture_part(
        file, sheet, mode, output, work, at, most, passed, dropped, cut, answer,
    )
}
