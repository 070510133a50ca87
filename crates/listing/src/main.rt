// Document 01's listing program: standard input has the link byte, the mode byte and the sheet.
#![tactic(auto)]

ghost use Rattle.std.specs.Prelude.{◌≤◌, length, IfOk};

use report::list;
use std::io;
use std::io::{Read, Write};

// Reads until `buf` is full or the input ends; the answer is how many bytes were put at its start. No `for`: each read says how far it came.
// The program `insn_forms` has the same, and no crate beneath both reads.
fn read_full<R: Read>(from: &mut R, buf: &mut [u8]) -> io::Result<usize>
    ensures { IfOk result (λ n. n ≤ length buf.new) }
{
    let mut done = 0;
    while done < buf.len() {
        let n = from.read(&mut buf[done..])?;
        if n == 0 {
            break;
        }
        done += n;
    }
    Ok(done)
}

// One byte more than the longest sheet shows a longer one.
fn run<R: Read, W: Write>(
    from: &mut R,
    out: &mut W,
    input: &mut [u8],
    output: &mut [u8],
    work: &mut [u32],
) -> io::Result<()> {
    let n = read_full(from, input)?;
    list(out, &input[..n], output, work)
}

fn main(rt: HostRuntime) -> io::Result<()> {
    let mut input = [0u8; 65539];
    let mut output = [0u8; 65536];
    let mut work = [0u32; 16384];
    let mut from = rt.stdin();
    let mut out = rt.stdout();
    run(&mut from, &mut out, &mut input, &mut output, &mut work)
}
