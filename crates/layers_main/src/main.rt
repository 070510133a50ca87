// Runs both layers on K2's program beside the forms by value, and prints what each gives and whether they are the same.
#![tactic(auto)]

ghost use Rattle.std.specs.Prelude.{◌≡◌, length};

use ebpf::act::Halt;
use ebpf::insn::Insn;
use ebpf::regs::Regs;
use ebpf::step;
use ebpf::step::{State, Turn};
use layers::{place, records};
use std::io::Write;
use std::{fmt, io};

// Where the frame lies.
const START: u64 = 4096;

// How many comparisons were made, and how many of them found no difference.
#[derive(Clone, Copy)]
struct Tally {
    compared: u64,
    same: u64,
}

impl Tally {
    fn new() -> Self {
        Tally {
            compared: 0,
            same: 0,
        }
    }

    fn count(&mut self, same: bool) {
        self.compared = self.compared.wrapping_add(1);
        self.same = self.same.wrapping_add(u64::from(same));
    }
}

impl fmt::Display for Tally {
    fn fmt<W: fmt::Write>(&self, f: &mut fmt::Formatter<W>) -> fmt::Result {
        write!(f, "{} compared, {} the same", self.compared, self.same)
    }
}

// A turn to be printed: the place after it, how the run ends, and each register that has been written.
#[derive(Clone, Copy)]
struct Shown(Turn);

impl fmt::Display for Shown {
    fn fmt<W: fmt::Write>(&self, f: &mut fmt::Formatter<W>) -> fmt::Result {
        let Turn { state, halt } = self.0;
        write!(f, "pc {}", state.pc)?;
        match halt {
            None => write!(f, " going")?,
            Some(Halt { stop, r0 }) => write!(f, " stop {stop} with {r0}")?,
        }
        for i in 0..7 {
            if state.regs.written[i] {
                write!(f, " r{i}={}", state.regs.values[i])?;
            }
        }
        Ok(())
    }
}

// A record to be printed, by its fields.
#[derive(Clone, Copy)]
struct Record(Option<Insn>);

impl fmt::Display for Record {
    fn fmt<W: fmt::Write>(&self, f: &mut fmt::Formatter<W>) -> fmt::Result {
        match self.0 {
            Some(
                Insn {
                    code,
                    regs,
                    off,
                    imm,
                },
            ) => write!(f, "{code:02x} {regs:02x} {off:04x} {imm:08x}"),
            None => write!(f, "nothing"),
        }
    }
}

fn verdict(same: bool) -> &'static str {
    if same { "same" } else { "DIFFERENT" }
}

// Each step from the first to the exit, of which twelve instructions with no jump back take at most twelve.
fn compare_steps<W: Write>(
    out: &mut W,
    program: &[u8],
    frame: &[u8],
    tally: &mut Tally,
) -> io::Result<()> {
    let mut s = State {
        regs: Regs {
            values: [0; 7],
            written: [false; 7],
        },
        pc: 0,
    };
    for _ in 0..12 {
        let by_value = step::step(program, frame, START, s);
        let in_place = place::step_by_place(program, frame, START, s);
        let same = by_value == in_place;
        writeln!(
            out,
            "step at pc {}: by value {} | in place {} | {}",
            s.pc,
            Shown(by_value),
            Shown(in_place),
            verdict(same)
        )?;
        check::expect(same);
        tally.count(same);
        if in_place.halt.is_some() {
            return Ok(());
        }
        s = in_place.state;
    }
    Ok(())
}

// Each record of the twelve.
fn compare_records<W: Write>(out: &mut W, program: &[u8], tally: &mut Tally) -> io::Result<()>
    requires { 96 ≡ length program.now }
{
    for k in 0..12 {
        let fetched = Insn::fetch(program, k * 8);
        let found = records::record_by_run(program, k);
        let same = fetched == found;
        writeln!(
            out,
            "record {k}: by fetch {} | in the run {} | {}",
            Record(fetched),
            Record(found),
            verdict(same)
        )?;
        check::expect(same);
        tally.count(same);
    }
    Ok(())
}

// Record `k` of the run after the bytes were put into it, where the run alone has something to show.
fn show_record<W: Write>(out: &mut W, what: &str, bytes: &[u8], k: usize) -> io::Result<()> {
    let found = Record(records::record_by_run(bytes, k));
    writeln!(out, "{what}, record {k} in the run: {found}")
}

fn main(rt: HostRuntime) -> io::Result<()> {
    let mut out = rt.stdout();
    let k2 = *b"\x61\x12\x00\x00\x00\x00\x00\x00\
        \x61\x13\x04\x00\x00\x00\x00\x00\
        \xbf\x25\x00\x00\x00\x00\x00\x00\
        \x07\x05\x00\x00\x0e\x00\x00\x00\
        \x2d\x35\x05\x00\x00\x00\x00\x00\
        \x69\x24\x0c\x00\x00\x00\x00\x00\
        \xdc\x04\x00\x00\x10\x00\x00\x00\
        \x55\x04\x02\x00\x00\x08\x00\x00\
        \xb7\x00\x00\x00\x02\x00\x00\x00\
        \x95\x00\x00\x00\x00\x00\x00\x00\
        \xb7\x00\x00\x00\x01\x00\x00\x00\
        \x95\x00\x00\x00\x00\x00\x00\x00";
    let ip = [0u8, 1, 2, 3, 4, 5, 6, 7, 8, 9, 10, 11, 0x08, 0x00];
    let arp = [0u8, 1, 2, 3, 4, 5, 6, 7, 8, 9, 10, 11, 0x08, 0x06];
    let mut steps = Tally::new();
    writeln!(out, "ethertype 0800")?;
    compare_steps(&mut out, &k2, &ip, &mut steps)?;
    writeln!(out, "ethertype 0806")?;
    compare_steps(&mut out, &k2, &arp, &mut steps)?;
    writeln!(out, "steps: {steps}")?;
    let mut records = Tally::new();
    compare_records(&mut out, &k2, &mut records)?;
    writeln!(out, "records: {records}")?;
    show_record(&mut out, "past the program", &k2, 12)?;
    show_record(&mut out, "past the program", &k2, 15)?;
    show_record(&mut out, "past the run", &k2, 16)?;
    show_record(&mut out, "no whole records", &k2[..95], 0)?;
    let sixteen = [0x95; 128];
    show_record(&mut out, "as many as the run has", &sixteen, 15)?;
    let seventeen = [0x95; 136];
    show_record(&mut out, "more than the run has", &seventeen, 0)
}
