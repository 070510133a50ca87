// The sheet's three sections, found by their counts.
#![tactic(auto, unfolding(crate::specs::Sheet::sections_of, crate::specs::Sheet::step_count, crate::specs::Sheet::prim_count, crate::specs::Sheet::token_count, crate::specs::Sheet::steps_part, crate::specs::Sheet::prims_part, crate::specs::Sheet::tokens_part))]

ghost use Rattle.std.specs.Prelude.{◌≡◌};
ghost use Rattle.filter.specs.Sheet.{sections_of, part, steps_part, prims_part, tokens_part};

use crate::bytes::count_at;

// How many steps, primitives and tokens a sheet has.
#[derive(Clone, Copy, PartialEq, Eq)]
pub struct Counts {
    pub steps: u16,
    pub prims: u16,
    pub tokens: u16,
}

// Each section as its own part of the sheet.
#[derive(Clone, Copy)]
pub struct Sections<'a> {
    pub steps: &'a [u8],
    pub prims: &'a [u8],
    pub tokens: &'a [u8],
}

// A count that is cut reads as zeros there, and then the length is below what the counts ask.
pub fn find_sections(sheet: &[u8]) -> Option<Counts>
    ensures { result ≡ sections_of sheet.now }
{
    let steps = count_at(sheet, 0);
    let a = 5 * u32::from(steps);
    let prims = count_at(sheet, a + 2);
    let b = a + 24 * u32::from(prims);
    let tokens = count_at(sheet, b + 4);
    let asked = b + u32::from(tokens) + 6;
    (sheet.len() == asked as usize).then_some(Counts {
        steps,
        prims,
        tokens,
    })
}

// The bytes from one place up to another, as far as there are any.
fn part(sheet: &[u8], from: usize, to: usize) -> &[u8]
    ensures { result.now ≡ part sheet.now from to }
{
    let end = to.min(sheet.len());
    &sheet[from.min(end)..end]
}

impl Counts {
    // The sections of a sheet with these counts; of any sheet, so much of each as is there.
    pub fn sections(self, sheet: &[u8]) -> Sections<'_>
        ensures steps { result.steps.now ≡ steps_part sheet.now self.steps }
        ensures prims { result.prims.now ≡ prims_part sheet.now self.steps self.prims }
        ensures tokens { result.tokens.now ≡ tokens_part sheet.now self.steps self.prims self.tokens }
    {
        let steps_end = 5 * usize::from(self.steps);
        let prims_end = steps_end + 24 * usize::from(self.prims);
        let tokens_end = prims_end + usize::from(self.tokens);
        Sections {
            steps: part(sheet, 2, steps_end + 2),
            prims: part(sheet, steps_end + 4, prims_end + 4),
            tokens: part(sheet, prims_end + 6, tokens_end + 6),
        }
    }
}
