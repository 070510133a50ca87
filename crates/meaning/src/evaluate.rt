// The evaluator: what a sheet says of a frame.
ghost use Rattle.std.specs.Prelude.{◌≡◌, ◌^◌, ◌<◌};
ghost use Rattle.refusals.specs.Refusal.{told};
ghost use Rattle.tree.specs.Shape.{shape_of};
ghost use Rattle.checks.specs.Check.{steps_before};
ghost use Rattle.meaning.specs.Evaluate.{judge, evaluate_of};
ghost use Rattle.meaning.specs.Walk.{refused_or};

use crate::walk::{Spot, eval_at};
use checks::check::{check_sheet, takes_steps};
use checks::refusal::refusal_of;
use filter::ast::LinkType;
use filter::record::primitive_at;
use filter::sheet::Sections;
use refusals::Refusal;

// The first of b primitives that earns one of 11 to 19, else what the tree says. Not inlined: the walk over the tree would stand on what it holds.
#[inline(never)]
fn refused_or(link: LinkType, parts: Sections, b: u16, holds: bool) -> Result<bool, Refusal>
    ensures { told result ≡ refused_or link parts.entry.steps.now parts.entry.prims.now b holds }
{
    let mut from = 0;
    for i in 0..u32::from(b) {
        let prim = primitive_at(parts.prims, i);
        if let Err(reason) = refusal_of(link, parts.steps, from, prim) {
            return Err(reason.at(i as usize));
        }
        from += u32::from(takes_steps(parts.prims, i));
    }
    Ok(holds)
}

// Tokens that are one tree of b primitives; refusal 9 comes before 11 to 19.
fn judge(link: LinkType, parts: Sections, b: u16, frame: &[u8]) -> Result<bool, Refusal>
    requires { (shape_of parts.tokens.now ≡ Some b) × (steps_before parts.prims.now b < 2 ^ 32) }
    ensures { told result ≡ judge link parts.entry.steps.now parts.entry.prims.now parts.entry.tokens.now b frame.now }
{
    let start = Spot {
        token: 0,
        prim: 0,
        step: 0,
    };
    let root = eval_at(link, &parts, frame, b, start, 256)?;
    refused_or(link, parts, b, root.holds)
}

// Any sheet, any link, any frame; each section is handed on as its own part of the sheet.
pub fn evaluate(sheet: &[u8], link: u8, frame: &[u8]) -> Result<bool, Refusal>
    ensures { told result ≡ evaluate_of sheet.now link frame.now }
{
    let n = check_sheet(sheet, link)?;
    judge(LinkType::from(link), n.sections(sheet), n.prims, frame)
}
