// Many cases in one run: standard input has one case after the other, each with its tag, all numbers big-endian; each
// case prints its answer on a line.
//   M program-length(4) program frame-length(4) frame start(8) budget(4): the machine's stop, R0 and steps.
//   S link(1) mode(1) sheet-length(4) sheet: the refusal and its place, or 0, the sheet's three counts and L.
//   A output(8) work(8) link(1) mode(1) sheet-length(4) sheet: the same, with refusals 7 and 8 for lent places of these sizes.
//   E link(1) sheet-length(4) sheet frame-length(4) frame: the refusal and its place, or 0 and whether the expression holds.
//   L length(4) bytes: the listing program's lines, for these bytes as its input.
//   C link(1) mode(1) output-bytes(4) work-numbers(4) sheet-length(4) sheet: the listing program's lines, for lent places of
//     these sizes; output to 1 MiB, work to 1 Mi numbers.
//   P mode(1) at(8) most(8) sheet-length(4) sheet file-length(4) file: the refusal and its place, or 0, the frames passed, dropped and cut, and
//     where to go on; of a whole savefile if `at` is 0, else of at most `most` records from byte `at` on.
//   N output-bytes(4) sheet-length(4) sheet: the refusal and its place, or 0, the length of the sheet with the Nots pushed down, and its bytes
//     in hex; output to 1 MiB.
// A case that is cut, has another tag or is longer than its buffers ends the run with a line that says which case it is.
#![tactic(auto)]

use capture::{Counted, capture, capture_part};
use checks::check::check_sheet_mode;
use checks::measure::{Measured, admit, measure};
use ebpf::run;
use filter::sheet::Counts;
use meaning::evaluate::evaluate;
use nots::push_nots;
use refusals::Refusal;
use report::{list, report};
use std::io;
use std::io::{ErrorKind, Read, Write};

// Why no case follows: this one is cut, too long or of no kind, or a read or a write failed.
#[derive(Drop)]
enum Stop {
    Broken,
    Io(io::Error),
}

impl From<io::Error> for Stop {
    fn from(e: io::Error) -> Stop {
        match e.kind() {
            ErrorKind::UnexpectedEof => Stop::Broken,
            _ => Stop::Io(e),
        }
    }
}

// What the cases are read into and worked in.
#[derive(Drop)]
struct Room<'a> {
    bytes: &'a mut [u8],
    frame: &'a mut [u8],
    output: &'a mut [u8],
    work: &'a mut [u32],
}

fn read_bytes<const N: usize, R: Read>(from: &mut R) -> Result<[u8; N], Stop> {
    let mut bytes = [0; N];
    from.read_exact(&mut bytes)?;
    Ok(bytes)
}

fn read4<R: Read>(from: &mut R) -> Result<u32, Stop> {
    Ok(u32::from_be_bytes(read_bytes(from)?))
}

fn read8<R: Read>(from: &mut R) -> Result<u64, Stop> {
    Ok(u64::from_be_bytes(read_bytes(from)?))
}

// A length and as many bytes, into the front of `buf`.
fn read_part<'a, R: Read>(from: &mut R, buf: &'a mut [u8]) -> Result<&'a [u8], Stop> {
    let n = read4(from)? as usize;
    let part = first(buf, n)?;
    from.read_exact(part)?;
    Ok(part)
}

// The first n of the places.
fn first<T>(places: &mut [T], n: usize) -> Result<&mut [T], Stop> {
    places.get_mut(..n).ok_or(Stop::Broken)
}

fn machine_case<R: Read, W: Write>(
    from: &mut R,
    out: &mut W,
    room: &mut Room<'_>,
) -> Result<(), Stop> {
    let program = read_part(from, room.bytes)?;
    let frame = read_part(from, room.frame)?;
    let start = read8(from)?;
    let budget = read4(from)?;
    let o = run::run(program, frame, start, budget as u64);
    writeln!(out, "{} {} {}", o.stop, o.r0, o.steps)?;
    Ok(())
}

fn print_refusal<W: Write>(out: &mut W, refusal: Refusal) -> io::Result<()> {
    writeln!(out, "{} {}", refusal.reason.number(), refusal.place)
}

fn print_measured<W: Write>(out: &mut W, answer: Result<Measured, Refusal>) -> io::Result<()> {
    match answer {
        Ok(Measured { counts, length }) => {
            let Counts {
                steps,
                prims,
                tokens,
            } = counts;
            writeln!(out, "0 {steps} {prims} {tokens} {length}")
        }
        Err(refusal) => print_refusal(out, refusal),
    }
}

fn sheet_case<R: Read, W: Write>(
    from: &mut R,
    out: &mut W,
    room: &mut Room<'_>,
) -> Result<(), Stop> {
    let [link, mode] = read_bytes::<2, R>(from)?;
    let sheet = read_part(from, room.bytes)?;
    let answer = check_sheet_mode(sheet, link, mode).and_then(|_| measure(sheet, link));
    print_measured(out, answer)?;
    Ok(())
}

fn admit_case<R: Read, W: Write>(
    from: &mut R,
    out: &mut W,
    room: &mut Room<'_>,
) -> Result<(), Stop> {
    let output = read8(from)?;
    let work = read8(from)?;
    let [link, mode] = read_bytes::<2, R>(from)?;
    let sheet = read_part(from, room.bytes)?;
    print_measured(out, admit(sheet, link, mode, output, work))?;
    Ok(())
}

fn evaluate_case<R: Read, W: Write>(
    from: &mut R,
    out: &mut W,
    room: &mut Room<'_>,
) -> Result<(), Stop> {
    let [link] = read_bytes::<1, R>(from)?;
    let sheet = read_part(from, room.bytes)?;
    let frame = read_part(from, room.frame)?;
    match evaluate(sheet, link, frame) {
        // The line whole, in one write.
        Ok(holds) => out.write_all(if holds { b"0 1\n" } else { b"0 0\n" })?,
        Err(refusal) => print_refusal(out, refusal)?,
    }
    Ok(())
}

fn compile_case<R: Read, W: Write>(
    from: &mut R,
    out: &mut W,
    room: &mut Room<'_>,
) -> Result<(), Stop> {
    let [link, mode] = read_bytes::<2, R>(from)?;
    let bytes = read4(from)? as usize;
    let numbers = read4(from)? as usize;
    let sheet = read_part(from, room.bytes)?;
    let output = first(room.output, bytes)?;
    let work = first(room.work, numbers)?;
    report(out, sheet, link, mode, output, work)?;
    Ok(())
}

fn listing_case<R: Read, W: Write>(
    from: &mut R,
    out: &mut W,
    room: &mut Room<'_>,
) -> Result<(), Stop> {
    let input = read_part(from, room.bytes)?;
    // The listing program's buffers are the first so many places.
    let output = first(room.output, 65536)?;
    let work = first(room.work, 16384)?;
    list(out, input, output, work)?;
    Ok(())
}

fn print_counted<W: Write>(out: &mut W, answer: Result<Counted, Refusal>) -> io::Result<()> {
    match answer {
        Ok(Counted { tally, next }) => {
            writeln!(
                out,
                "0 {} {} {} {next}",
                tally.passed, tally.dropped, tally.cut
            )
        }
        Err(refusal) => print_refusal(out, refusal),
    }
}

fn capture_case<R: Read, W: Write>(
    from: &mut R,
    out: &mut W,
    room: &mut Room<'_>,
) -> Result<(), Stop> {
    let [mode] = read_bytes::<1, R>(from)?;
    let at = read8(from)?;
    let most = read8(from)?;
    let sheet = read_part(from, room.frame)?;
    let file = read_part(from, room.bytes)?;
    let answer = if at == 0 {
        capture(file, sheet, mode, room.output, room.work)
    } else {
        capture_part(file, sheet, mode, room.output, room.work, at as usize, most)
    };
    print_counted(out, answer)?;
    Ok(())
}

fn print_bytes<W: Write>(out: &mut W, bytes: &[u8]) -> io::Result<()> {
    for byte in bytes {
        write!(out, "{byte:02x}")?;
    }
    writeln!(out)
}

fn nots_case<R: Read, W: Write>(
    from: &mut R,
    out: &mut W,
    room: &mut Room<'_>,
) -> Result<(), Stop> {
    let bytes = read4(from)? as usize;
    let sheet = read_part(from, room.bytes)?;
    let output = first(room.output, bytes)?;
    match push_nots(sheet, output) {
        Ok(bytes) => {
            write!(out, "0 {bytes} ")?;
            if let Some(pushed) = output.get(..bytes as usize) {
                print_bytes(out, pushed)?;
            }
        }
        Err(refusal) => print_refusal(out, refusal)?,
    }
    Ok(())
}

// The next case's tag, or none at the input's end.
fn next_tag<R: Read>(from: &mut R) -> io::Result<Option<u8>> {
    match read_bytes::<1, R>(from) {
        Ok(tag) => Ok(Some(tag[0])),
        Err(Stop::Broken) => Ok(None),
        Err(Stop::Io(e)) => Err(e),
    }
}

fn one_case<R: Read, W: Write>(
    tag: u8,
    from: &mut R,
    out: &mut W,
    room: &mut Room<'_>,
) -> Result<(), Stop> {
    match tag {
        b'M' => machine_case(from, out, room),
        b'S' => sheet_case(from, out, room),
        b'A' => admit_case(from, out, room),
        b'E' => evaluate_case(from, out, room),
        b'C' => compile_case(from, out, room),
        b'L' => listing_case(from, out, room),
        b'P' => capture_case(from, out, room),
        b'N' => nots_case(from, out, room),
        _ => Err(Stop::Broken),
    }
}

// The cases up to the input's end, numbered from 1.
fn replay<R: Read, W: Write>(from: &mut R, out: &mut W, room: &mut Room<'_>) -> io::Result<()> {
    for case in 1..0x1_0000_0000u64 {
        let Some(tag) = next_tag(from)? else {
            if case == 1 {
                writeln!(out, "usage: replay < CASES (tests/ says how they are made)")?;
            }
            return Ok(());
        };
        match one_case(tag, from, out, room) {
            Ok(()) => {}
            Err(Stop::Broken) => {
                return writeln!(out, "case {case} is cut, too long or of no kind");
            }
            Err(Stop::Io(e)) => return Err(e),
        }
    }
    Ok(())
}

fn main(rt: HostRuntime) -> io::Result<()> {
    let mut from = rt.stdin();
    let mut out = rt.stdout();
    let mut room = Room {
        bytes: &mut [0; 589824],
        frame: &mut [0; 65536],
        output: &mut [0; 1048576],
        work: &mut [0; 1048576],
    };
    replay(&mut from, &mut out, &mut room)
}
