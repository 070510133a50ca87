// What document 01's listing program prints: the refusal and its place or 0 and L, then the program or the Rust's text.
#![tactic(auto, unfolding(crate::specs::Listing::listed))]

ghost use Rattle.std.specs.Prelude.{◌≡◌, length};
ghost use Rattle.generator.specs.Compile.{outcome_of, output_after, work_after};
ghost use Rattle.report.specs.Listing.{listed};

use filter::ast::{Primitive, Proto};
use filter::bytes::count_at;
use filter::record::primitive_at;
use generator::compile;
use refusals::Reason;
use std::io;
use std::io::Write;

const DIGITS: [u8; 16] = *b"0123456789abcdef";

// The program's length, then each instruction's eight bytes in hex on a line. Digit by digit: `write!` of a number makes a long listing take a third more time.
fn print_program<W: Write>(out: &mut W, code: &[u8]) -> io::Result<()> {
    let (insns, _) = code.as_chunks::<8>();
    writeln!(out, "0 {}", insns.len())?;
    for insn in insns {
        let mut line = [b'\n'; 17];
        for i in 0..8 {
            let byte = usize::from(insn[i]);
            line[2 * i] = DIGITS[byte / 16];
            line[2 * i + 1] = DIGITS[byte % 16];
        }
        out.write_all(&line)?;
    }
    Ok(())
}

fn proto_ethertype(proto: Proto) -> u16 {
    match proto {
        Proto::Ip6 | Proto::Icmp6 | Proto::Ip6Proto(_) => 0x86dd,
        Proto::Arp => 0x0806,
        Proto::Rarp => 0x8035,
        _ => 0x0800,
    }
}

// The ethertype that a test asks for.
fn ethertype_of(prim: Primitive) -> u16 {
    match prim {
        Primitive::Host6 { .. }
        | Primitive::Net6 { .. }
        | Primitive::Ip6Multicast
        | Primitive::Ip6ProtoChain(_) => 0x86dd,
        Primitive::Proto(p) => proto_ethertype(p),
        Primitive::EtherProto(et) => et,
        Primitive::Vlan { .. } => 0x8100,
        Primitive::PppoeDiscovery => 0x8863,
        Primitive::PppoeSession { .. } => 0x8864,
        _ => 0x0800,
    }
}

// The ethertype of primitive `place` of a sheet, or 0; the primitives follow the steps and their own count.
fn ethertype_at(sheet: &[u8], place: usize) -> u16 {
    let from = 4 + 5 * count_at(sheet, 0) as usize;
    match sheet.get(from..) {
        Some(prims) if place < 65536 => ethertype_of(primitive_at(prims, place as u32)),
        _ => 0,
    }
}

// The Rust's message, if the refusal has one; 11 names the ethertype that was refused.
fn print_message<W: Write>(out: &mut W, reason: Reason, et: u16) -> io::Result<()> {
    let text = match reason {
        Reason::FarJump => "filter expression is too complex: eBPF jump offset overflow\n",
        Reason::NoEthertype => {
            return writeln!(
                out,
                "ethertype 0x{et:04x} cannot be matched on RawIp captures"
            );
        }
        Reason::NoEtherHost => "ether host cannot be used with RawIp link type\n",
        Reason::NoEtherMulticast => "ether multicast cannot be used with RawIp link type\n",
        Reason::NoMpls => "mpls cannot be matched on RawIp captures\n",
        Reason::NoDirection => "inbound/outbound direction cannot be expressed in eBPF\n",
        Reason::ComparedWithLoad =>
            "expr-vs-expr byte-access comparison is not yet supported for eBPF targets\n",
        Reason::DivisionByZero => "division by zero in byte-access expression\n",
        Reason::Modulo => "modulo (%) is not supported in eBPF byte-access expressions\n",
        _ => return Ok(()),
    };
    out.write_all(text.as_bytes())
}

// `compile`, and its answer printed to `out`. What `output` and `work` hold does not depend on whether a write fails.
#[tactic(auto, using(crate::proofs::Room::program_room))]
pub fn report<W: Write>(
    out: &mut W,
    sheet: &[u8],
    link: u8,
    mode: u8,
    output: &mut [u8],
    work: &mut [u32],
) -> io::Result<()>
    ensures output_after { output.new ≡ output_after (outcome_of sheet.now link mode (length output.old) (length work.old)) output.old }
    ensures work_after { work.new ≡ work_after (outcome_of sheet.now link mode (length output.old) (length work.old)) work.old }
{
    match compile(sheet, link, mode, output, work) {
        Ok(length) => print_program(out, &output[..8 * length]),
        Err(refusal) => {
            writeln!(out, "{} {}", refusal.reason.number(), refusal.place)?;
            print_message(out, refusal.reason, ethertype_at(sheet, refusal.place))
        }
    }
}

// Document 01's listing program, once its input is read: link byte, mode byte, sheet.
pub fn list<W: Write>(
    out: &mut W,
    input: &[u8],
    output: &mut [u8],
    work: &mut [u32],
) -> io::Result<()>
    ensures output_after { output.new ≡ output_after (listed input.now (length output.old) (length work.old)) output.old }
    ensures work_after { work.new ≡ work_after (listed input.now (length output.old) (length work.old)) work.old }
{
    let [link, mode, sheet @ ..] = input else {
        return writeln!(out, "1 0");
    };
    if *link > 2 || *mode > 1 {
        return writeln!(out, "1 0");
    }
    if sheet.len() > 65536 {
        return writeln!(out, "2 0");
    }
    report(out, sheet, *link, *mode, output, work)
}
