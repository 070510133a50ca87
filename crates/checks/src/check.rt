// Refusals 1 to 6, in the order in which they are looked for.
#![tactic(auto, unfolding(crate::specs::Check::one_tree, crate::specs::Check::complete, crate::specs::Check::base_of, crate::specs::Check::far, crate::specs::Check::far_offset, crate::specs::Check::shifts, crate::specs::Check::big_shift, crate::specs::Check::check_accesses))]

ghost use Rattle.std.specs.Prelude.{◌≡◌, ◌+◌, ◌*◌, ◌<◌, ◌≤◌, ◌^◌, length};
ghost use Rattle.refusals.specs.Refusal.{told};
ghost use Rattle.refusals.specs.Refusal.Answer.{Given};
ghost use Rattle.filter.specs.First.{first, any};
ghost use Rattle.filter.specs.Sheet.{sections_of};
ghost use Rattle.tree.specs.Shape.{shape_of};
ghost use Rattle.checks.specs.Check.{takes, steps_before, one_tree, complete, base_of, far, far_offset, shifts, big_shift, shift_at, lowest_wrong, check_accesses, check_parts, check_sections, whole_parts, whole_of, check_of, check_mode_of};

use filter::ast::{ArithOp, ByteAccess, Layer, LinkType};
use filter::bytes::Record;
use filter::record::{access_at, step_at};
use filter::sheet::{Counts, Sections, find_sections};
use filter::wrong::{first_wrong_record, first_wrong_step, first_wrong_token};
use refusals::{Reason, Refusal};
use tree::whole_tree;

// How many steps record i takes.
pub fn takes_steps(prims: &[u8], i: u32) -> u16
    ensures { result ≡ takes prims.now i }
{
    let record = Record { part: prims, i };
    if record.kind() == 23 {
        record.half(12)
    } else {
        0
    }
}

// How many steps the first n records take. The part and n stay two: the promise holds for any n, also where the part has fewer or more.
pub fn steps_before(prims: &[u8], n: u16) -> u32
    ensures { result ≡ steps_before prims.now n }
{
    let mut sum = 0;
    for i in 0..u32::from(n) {
        sum += u32::from(takes_steps(prims, i));
    }
    sum
}

fn one_tree(tokens: &[u8], n: u16) -> bool
    ensures { result ≡ one_tree (shape_of tokens.now) n }
{
    whole_tree(tokens) == Some(usize::from(n))
}

// Refusal 4, where this is false.
pub fn is_complete(prims: &[u8], tokens: &[u8], a: u16, b: u16) -> bool
    ensures { result ≡ complete prims.now tokens.now a b }
{
    one_tree(tokens, b) && steps_before(prims, b) == u32::from(a)
}

fn base_of(link: LinkType, layer: Layer) -> u32
    ensures { (result ≡ base_of link layer) × (result ≤ 16) }
{
    match layer {
        Layer::Net => link.net_offset(),
        Layer::Raw | Layer::Trans => 0,
    }
}

fn is_far(link: LinkType, a: ByteAccess) -> bool
    ensures { result ≡ far link a }
{
    2147483648 <= a.offset || 32767 < a.offset + base_of(link, a.layer)
}

// Whether record i is a byte access whose left offset is out of reach.
pub fn far_offset(link: LinkType, prims: &[u8], i: u32) -> bool
    ensures { result ≡ far_offset link prims.now i }
{
    Record { part: prims, i }.kind() == 23 && is_far(link, access_at(prims, i))
}

// The first of n records with an offset out of reach, n if none has one.
pub fn first_far(link: LinkType, prims: &[u8], n: u16) -> u32
    ensures { result ≡ first (far_offset link prims.now) n 0 }
{
    for i in 0..u32::from(n) {
        if far_offset(link, prims, i) {
            return i;
        }
    }
    u32::from(n)
}

fn is_shift(op: ArithOp) -> bool
    ensures { result ≡ shifts op }
{
    matches!(op, ArithOp::Shl | ArithOp::Shr)
}

// Whether the step k places after step `from` is a shift by 32 or more.
// `steps` and `from` stay two: the part is all primitives', `from` counts on over them, and a struct would be built anew for each.
pub fn big_shift(steps: &[u8], from: u32, k: u16) -> bool
    ensures { result ≡ big_shift steps.now (from + k) }
{
    let s = step_at(steps, from, k);
    is_shift(s.op) && 32 <= s.operand
}

// Whether one of n steps from step `from` on is such a shift.
pub fn shift_in(steps: &[u8], from: u32, n: u16) -> bool
    ensures { result ≡ any (big_shift steps.now) n from }
{
    for k in 0..n {
        if big_shift(steps, from, k) {
            return true;
        }
    }
    false
}

// The first of n records with such a shift, n if none has one.
pub fn first_shift(steps: &[u8], prims: &[u8], n: u16) -> u32
    ensures { result ≡ first (shift_at steps.now prims.now) n 0 }
{
    let mut from = 0;
    for i in 0..u32::from(n) {
        let k = takes_steps(prims, i);
        if shift_in(steps, from, k) {
            return i;
        }
        from += u32::from(k);
    }
    u32::from(n)
}

// The lowest wrong byte, counted from the sheet's first; the sheet's length if none is wrong.
fn lowest_wrong(parts: Sections, n: Counts) -> u32
    ensures { result ≡ lowest_wrong parts.entry.steps.now parts.entry.prims.now parts.entry.tokens.now n.steps n.prims n.tokens }
{
    let steps_end = 5 * u32::from(n.steps);
    let x = first_wrong_step(parts.steps, steps_end);
    if x < steps_end {
        return x + 2;
    }
    let prims_len = 24 * u32::from(n.prims);
    let y = first_wrong_record(parts.prims, prims_len);
    if y < prims_len {
        return steps_end + y + 4;
    }
    steps_end + prims_len + first_wrong_token(parts.tokens, u32::from(n.tokens)) + 6
}

fn check_accesses(link: LinkType, parts: Sections, n: Counts) -> Result<Counts, Refusal>
    ensures { told result ≡ check_accesses link parts.entry.steps.now parts.entry.prims.now n.steps n.prims n.tokens }
{
    let x = first_far(link, parts.prims, n.prims);
    if x < u32::from(n.prims) {
        return Err(Reason::FarOffset.at(x as usize));
    }
    let y = first_shift(parts.steps, parts.prims, n.prims);
    if y < u32::from(n.prims) {
        return Err(Reason::BigShift.at(y as usize));
    }
    Ok(n)
}

// Refusals 3 and 4.
fn check_shape(parts: Sections, n: Counts) -> Result<Counts, Refusal>
    ensures { told result ≡ whole_parts parts.entry.steps.now parts.entry.prims.now parts.entry.tokens.now n.steps n.prims n.tokens (Given n) }
{
    let x = lowest_wrong(parts, n);
    if x < 5 * u32::from(n.steps) + 24 * u32::from(n.prims) + u32::from(n.tokens) + 6 {
        return Err(Reason::WrongByte.at(x as usize));
    }
    if !is_complete(parts.prims, parts.tokens, n.steps, n.prims) {
        return Err(Reason::NotOneTree.at(0));
    }
    Ok(n)
}

// Refusals 3 to 6.
pub fn check_parts(link: LinkType, parts: Sections, n: Counts) -> Result<Counts, Refusal>
    ensures { told result ≡ check_parts link parts.entry.steps.now parts.entry.prims.now parts.entry.tokens.now n.steps n.prims n.tokens }
{
    check_shape(parts, n)?;
    check_accesses(link, parts, n)
}

// Refusals 2 to 6; each section is handed on as its own part of the sheet.
fn check_sections(link: LinkType, sheet: &[u8]) -> Result<Counts, Refusal>
    ensures { told result ≡ check_sections link sheet.now (sections_of sheet.now) }
{
    let n = find_sections(sheet).ok_or(Reason::SheetLength.at(0))?;
    check_parts(link, n.sections(sheet), n)
}

// Refusals 2 to 4, for which no link is asked.
pub fn check_whole(sheet: &[u8]) -> Result<Counts, Refusal>
    ensures { told result ≡ whole_of sheet.now }
{
    let n = find_sections(sheet).ok_or(Reason::SheetLength.at(0))?;
    check_shape(n.sections(sheet), n)
}

// Refusals 1 to 6 where no mode is given. Any byte may come as link or mode: one that is none is refused.
pub fn check_sheet(sheet: &[u8], link: u8) -> Result<Counts, Refusal>
    ensures { told result ≡ check_of sheet.now link }
{
    if 2 < link {
        return Err(Reason::LinkOrMode.at(0));
    }
    check_sections(LinkType::from(link), sheet)
}

// Refusals 1 to 6.
pub fn check_sheet_mode(sheet: &[u8], link: u8, mode: u8) -> Result<Counts, Refusal>
    ensures { told result ≡ check_mode_of sheet.now link mode }
{
    if 1 < mode {
        return Err(Reason::LinkOrMode.at(0));
    }
    check_sheet(sheet, link)
}
