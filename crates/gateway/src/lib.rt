// A sheet compiled and a frame judged by its program, in mended mode: what stands above needs to know no more.
#![tactic(auto)]

ghost use Rattle.std.specs.Prelude.{◌≡◌, length};
ghost use Rattle.generator.specs.Compile.{outcome_of, answer_of, output_after, work_after};
ghost use Rattle.sound.specs.Demand.{sheet_holds};
ghost use Rattle.gateway.specs.Judge.{judged, judged_of};
ghost use Rattle.gateway.specs.declared.Unjudged.TheVariants.{Refused};

use ebpf::run::run;
use generator::compile;
use refusals::Refusal;

// What a filter says of a frame.
#[derive(Clone, Copy, PartialEq, Eq)]
pub enum Verdict {
    Pass,
    Drop,
}

// Why a frame is not judged: a refusal of document 01 with its place, or a frame longer than the machine takes.
#[derive(Clone, Copy, PartialEq, Eq)]
pub enum Unjudged {
    Refused(Refusal),
    Long,
}

impl From<Refusal> for Unjudged {
    ghost from_gives = { λ refusal unjudged. unjudged ≡ Refused refusal };

    fn from(refusal: Refusal) -> Unjudged {
        Unjudged::Refused(refusal)
    }
}

// Any sheet, any link, any frame, any output and work. The frame stands at 0 on the machine.
pub fn judge(
    sheet: &[u8],
    link: u8,
    frame: &[u8],
    output: &mut [u8],
    work: &mut [u32],
) -> Result<Verdict, Unjudged>
    ensures value { judged result ≡ judged_of (answer_of (outcome_of sheet.now link 1 (length output.old) (length work.old))) (length frame.now) (sheet_holds sheet.now link frame.now) }
    ensures output_after { output.new ≡ output_after (outcome_of sheet.now link 1 (length output.old) (length work.old)) output.old }
    ensures work_after { work.new ≡ work_after (outcome_of sheet.now link 1 (length output.old) (length work.old)) work.old }
{
    let length = compile(sheet, link, 1, output, work)?;
    if 0xffff_ffff < frame.len() {
        return Err(Unjudged::Long);
    }
    let end = run(&output[..8 * length], frame, 0, length as u64);
    if end.r0 == 2 {
        Ok(Verdict::Pass)
    } else {
        Ok(Verdict::Drop)
    }
}
