// Document 02's A4: a new sheet with the same steps and primitives, in which Not stands only directly above a primitive.
#![tactic(auto)]

ghost use Rattle.std.specs.Prelude.{◌≡◌, ◌++◌, ◌+◌, ◌<◌, ◌≤◌, length, take, drop};
ghost use Rattle.refusals.specs.Refusal.{told};
ghost use Rattle.filter.specs.Written.{written};
ghost use Rattle.nots.specs.Turn.{Begins, past, wanted_at, denied_at, other_of, laid, reached_of, leaf_size, size_of};
ghost use Rattle.nots.specs.Push.{new_sheet, roomed, push_of, sheet_after};
ghost use Rattle.nots.specs.Nots.{wanted_part};
ghost use Rattle.tree.specs.Tree.{flat, tree_of};

use checks::check::check_whole;
use refusals::{Reason, Refusal};

// A place in the tokens, and one in the output.
#[derive(Clone, Copy, PartialEq, Eq)]
pub struct Reached {
    pub token: usize,
    pub to: usize,
}

// Where the tokens behind a part begin, and how many tokens the turned part needs.
#[derive(Clone, Copy, PartialEq, Eq)]
pub struct Turned {
    pub next: usize,
    pub size: usize,
}

// A primitive's part, under a Not of its own where it is denied.
fn leaf_size(next: usize, denied: bool) -> Turned
    ensures { Some result ≡ leaf_size next denied }
{
    let size = if denied { 2 } else { 1 };
    Turned { next, size }
}

// The part that begins at a place, if it has at most `levels` levels: counted before a byte is written, as refusals touch no output.
fn size_at(tokens: &[u8], at: usize, levels: u16, denied: bool) -> Option<Turned>
    requires tokens_len_bound { length tokens.now < 65536 }
    requires begins { Begins tokens.now at }
    ensures { result ≡ size_of tokens.now at levels denied }
{
    if levels == 0 {
        return None;
    }
    let t = tokens[at];
    if t == 0 {
        return Some(leaf_size(at + 1, denied));
    }
    if t == 3 {
        return size_at(tokens, at + 1, levels - 1, !denied);
    }
    let first = size_at(tokens, at + 1, levels - 1, denied)?;
    let second = size_at(tokens, first.next, levels - 1, denied)?;
    Some(Turned {
        next: second.next,
        size: first.size + second.size + 1,
    })
}

// And for Or and Or for And.
fn other(t: u8) -> u8
    ensures { result ≡ other_of t }
{
    if t == 1 { 2 } else { 1 }
}

// Writes the wanted part whose tokens begin at `at` from `to` on.
#[cycle(denied_wanted)]
fn wanted(tokens: &[u8], at: usize, output: &mut [u8], to: usize) -> Reached
    requires begins { Begins tokens.now at }
    requires at_in_bounds { to + length (wanted_at tokens.now at) ≤ length output.old }
    ensures value { result ≡ reached_of (past tokens.now at) to (wanted_at tokens.now at) }
    ensures output_after { output.new ≡ laid output.old to (wanted_at tokens.now at) }
{
    let t = tokens[at];
    if t == 3 {
        return denied(tokens, at + 1, output, to);
    }
    output[to] = t;
    if t == 0 {
        return Reached {
            token: at + 1,
            to: to + 1,
        };
    }
    let mid = wanted(tokens, at + 1, output, to + 1);
    wanted(tokens, mid.token, output, mid.to)
}

// The same of the denied part: And and Or change places, and a primitive gets a Not.
#[cycle(denied_wanted)]
fn denied(tokens: &[u8], at: usize, output: &mut [u8], to: usize) -> Reached
    requires begins { Begins tokens.now at }
    requires at_in_bounds { to + length (denied_at tokens.now at) ≤ length output.old }
    ensures value { result ≡ reached_of (past tokens.now at) to (denied_at tokens.now at) }
    ensures output_after { output.new ≡ laid output.old to (denied_at tokens.now at) }
{
    let t = tokens[at];
    if t == 3 {
        return wanted(tokens, at + 1, output, to);
    }
    if t == 0 {
        output[to] = 3;
        output[to + 1] = 0;
        return Reached {
            token: at + 1,
            to: to + 2,
        };
    }
    output[to] = other(t);
    let mid = denied(tokens, at + 1, output, to + 1);
    denied(tokens, mid.token, output, mid.to)
}

// The first n bytes of the sheet. A `for`: `copy_from_slice` calls memmove, a name that the archive would need from outside.
fn copy_front(sheet: &[u8], n: usize, output: &mut [u8])
    requires { (n ≤ length sheet.now) × (n ≤ length output.old) }
    ensures { output.new ≡ take n sheet.now ++ drop n output.old }
{
    for i in 0..n {
        output[i] = sheet[i];
    }
}

// The new sheet: the front, the count of its tokens, and the turned tree.
fn write_sheet(sheet: &[u8], front: usize, size: usize, tokens: &[u8], output: &mut [u8])
    requires front_in_bounds { (front ≤ length sheet.now) × (size < 65536) }
    requires begins { Begins tokens.now 0 × (size ≡ length (wanted_at tokens.now 0)) }
    requires size_in_bounds { front + size + 2 ≤ length output.old }
    ensures { output.new ≡ written (take front sheet.now) (wanted_at tokens.now 0) ++ drop (front + size + 2) output.old }
{
    copy_front(sheet, front, output);
    output[front] = (size / 256) as u8;
    output[front + 1] = (size % 256) as u8;
    wanted(tokens, 0, output, front + 2);
}

// Refusals 9, 50 and 7, of a sheet that passes 2 to 4.
fn push_tree(sheet: &[u8], front: usize, tokens: &[u8], output: &mut [u8]) -> Result<u32, Refusal>
    requires front_in_bounds { (front ≤ length sheet.now) × (front < 2000000) }
    requires tokens_len_bound { (length tokens.now < 65536) × Begins tokens.now 0 }
    ensures value { told result ≡ roomed (take front sheet.now) (tree_of tokens.now) (length output.old) }
    ensures output_after { output.new ≡ sheet_after (told result) (written (take front sheet.now) (flat (wanted_part (tree_of tokens.now)))) output.old }
{
    let turned = size_at(tokens, 0, 256, false).ok_or(Reason::DeepTree.at(0))?;
    if 65535 < turned.size {
        return Err(Reason::ManyTokens.at(0));
    }
    let length = front + turned.size + 2;
    if output.len() < length {
        return Err(Reason::ShortOutput.at(0));
    }
    write_sheet(sheet, front, turned.size, tokens, output);
    Ok(length as u32)
}

// The new sheet's length. Any sheet, any output.
pub fn push_nots(sheet: &[u8], output: &mut [u8]) -> Result<u32, Refusal>
    ensures value { told result ≡ push_of sheet.now (length output.old) }
    ensures output_after { output.new ≡ sheet_after (push_of sheet.now (length output.old)) (new_sheet sheet.now) output.old }
{
    let n = check_whole(sheet)?;
    let front = 5 * usize::from(n.steps) + 24 * usize::from(n.prims) + 4;
    push_tree(sheet, front, n.sections(sheet).tokens, output)
}
