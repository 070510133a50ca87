// The whole sheet measured: refusals 1 to 6, or its counts and L; then 7 and 8, for the lent places.
ghost use Rattle.std.specs.Prelude.{◌≡◌};
ghost use Rattle.refusals.specs.Refusal.{told};
ghost use Rattle.checks.specs.Measure.{measure_of, admit_of};

use crate::check::check_sheet;
use crate::length::program_length;
use filter::ast::LinkType;
use filter::sheet::Counts;
use refusals::{Reason, Refusal};

// What the sheet asks: its counts, and L.
#[derive(Clone, Copy, PartialEq, Eq)]
pub struct Measured {
    pub counts: Counts,
    pub length: u64,
}

// Any sheet, any link; each section is handed on as its own part of the sheet.
pub fn measure(sheet: &[u8], link: u8) -> Result<Measured, Refusal>
    ensures { told result ≡ measure_of sheet.now link }
{
    let counts = check_sheet(sheet, link)?;
    let length = program_length(LinkType::from(link), counts.sections(sheet), counts);
    Ok(Measured { counts, length })
}

// Refusals 1 to 8, of any bytes for link and mode: the output is given in bytes, the work in numbers of 32 bits.
pub fn admit(sheet: &[u8], link: u8, mode: u8, output: u64, work: u64) -> Result<Measured, Refusal>
    ensures { told result ≡ admit_of sheet.now link mode output work }
{
    if 1 < mode {
        return Err(Reason::LinkOrMode.at(0));
    }
    let asked = measure(sheet, link)?;
    if output < 8 * asked.length {
        return Err(Reason::ShortOutput.at(0));
    }
    if work < asked.length + 8 * u64::from(asked.counts.tokens) {
        return Err(Reason::ShortWork.at(0));
    }
    Ok(asked)
}
