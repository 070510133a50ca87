// Instructions that an outside assembler made (standard input, tests/insn), beside this project's constructors: the
// fields and the bytes of each are compared.
#![tactic(auto)]

ghost use Rattle.std.specs.Prelude.{◌≤◌, length, IfOk};

use ebpf::insn::Insn;
use std::io::{Read, Write};
use std::{fmt, io};

// The instruction on line `k` of tests/insn/forms.s.
fn form(k: usize) -> Insn {
    match k {
        0 => Insn::mov64_reg(5, 2),
        1 => Insn::mov64_imm(0, 2),
        2 => Insn::mov64_imm(3, 0xffff_fffe),
        3 => Insn::add64_reg(6, 4),
        4 => Insn::sub64_reg(4, 2),
        5 => Insn::add64_imm(5, 14),
        6 => Insn::add64_imm(6, 0xffff_fff8),
        7 => Insn::and32_imm(4, 0xf000_0000),
        8 => Insn::or32_imm(4, 0x1234_5678),
        9 => Insn::xor32_imm(3, 0x7fff_ffff),
        10 => Insn::add32_imm(2, 1),
        11 => Insn::sub32_imm(4, 0x8000_0000),
        12 => Insn::mul32_imm(5, 1000003),
        13 => Insn::div32_imm(6, 10),
        14 => Insn::rsh32_imm(4, 31),
        15 => Insn::lsh32_imm(4, 2),
        16 => Insn::be16(4),
        17 => Insn::be32(5),
        18 => Insn::ldx_b(4, 2, 23),
        19 => Insn::ldx_h(4, 6, 2),
        20 => Insn::ldx_w(2, 1, 0),
        21 => Insn::ldx_w(3, 1, 4),
        22 => Insn::ldx_w(4, 2, 0x8000),
        23 => Insn::ldx_b(0, 5, 0x7fff),
        24 => Insn::ja(258),
        25 => Insn::ja(0xffff),
        26 => Insn::jeq_imm(4, 0x0800, 7),
        27 => Insn::jne_imm(4, 0x86dd, 11),
        28 => Insn::jgt_imm(4, 65535, 3),
        29 => Insn::jge_imm(2, 0, 0x1234),
        30 => Insn::jlt_imm(4, 1024, 4),
        31 => Insn::jle_imm(4, 0xffff_ffff, 0xfffe),
        32 => Insn::jset_imm(4, 1, 1),
        33 => Insn::jeq32_imm(4, 0xc0a8_0114, 5),
        34 => Insn::jne32_imm(4, 0xe000_0000, 6),
        35 => Insn::jgt32_imm(4, 0x8000_0000, 1),
        36 => Insn::jge32_imm(6, 0xffff_ffff, 0x7fff),
        37 => Insn::jlt32_imm(0, 2, 2),
        38 => Insn::jle32_imm(4, 0x7fff_ffff, 3),
        39 => Insn::jset32_imm(4, 0x0f, 0xfffd),
        40 => Insn::jgt_reg(5, 3, 5),
        _ => Insn::exit(),
    }
}

// Bytes to be printed, two digits each.
#[derive(Clone, Copy)]
struct Hex<'a>(&'a [u8]);

impl fmt::Display for Hex<'_> {
    fn fmt<W: fmt::Write>(&self, f: &mut fmt::Formatter<W>) -> fmt::Result {
        for b in self.0 {
            write!(f, "{b:02x}")?;
        }
        Ok(())
    }
}

// One line for instruction `k`: its number, their bytes, our bytes, and whether they are the same.
fn report<W: Write>(out: &mut W, k: usize, theirs: &[u8]) -> io::Result<bool> {
    let ours = form(k);
    let bytes = ours.to_le_bytes();
    let said = if Insn::fetch(theirs, 0) != Some(ours) {
        "other fields"
    } else if bytes.as_slice() != theirs {
        "other bytes"
    } else {
        "same"
    };
    writeln!(out, "{k} {} {} {said}", Hex(theirs), Hex(&bytes))?;
    Ok(said == "same")
}

fn report_all<W: Write>(out: &mut W, bytes: &[u8]) -> io::Result<()> {
    let mut same: usize = 0;
    for (k, theirs) in bytes.chunks_exact(8).enumerate() {
        if report(out, k, theirs)? {
            same = same.saturating_add(1);
        }
    }
    writeln!(out, "{} instructions, {same} the same", bytes.len() / 8)
}

// Reads until `buf` is full or the input ends; the answer is how many bytes were put at its start. Stays a `while`: each read says where the next begins.
// The program `listing` has the same: this one stands on ebpf alone, and no crate beneath both reads.
fn read_full<R: Read>(from: &mut R, buf: &mut [u8]) -> io::Result<usize>
    ensures { IfOk result (λ n. n ≤ length buf.new) }
{
    let mut done = 0;
    while done < buf.len() {
        let n = from.read(&mut buf[done..])?;
        if n == 0 {
            break;
        }
        done += n;
    }
    Ok(done)
}

fn main(rt: HostRuntime) -> io::Result<()> {
    let mut from = rt.stdin();
    let mut out = rt.stdout();
    let mut buf = [0u8; 4096];
    let n = read_full(&mut from, &mut buf)?;
    if n < 8 {
        return writeln!(out, "usage: insn_forms < tests/insn/forms.bin");
    }
    report_all(&mut out, &buf[..n])
}
