// The tree of the tokens, judged from the front: each operand is a run of tokens of its own, one level deeper.
#![tactic(auto, unfolding(crate::specs::Walk::join_bool))]

ghost use Rattle.std.specs.Prelude.{◌≡◌, ◌^◌, ◌<◌};
ghost use Rattle.refusals.specs.Refusal.{told};
ghost use Rattle.checks.specs.Check.{steps_before};
ghost use Rattle.meaning.specs.Evaluate.{primitive_holds};
ghost use Rattle.meaning.specs.Walk.{join_bool, leaf_of, eval_at};

use crate::packet::Packet;
use checks::check::takes_steps;
use filter::ast::LinkType;
use filter::record::primitive_at;
use filter::sheet::Sections;
use refusals::{Reason, Refusal};

// A token, with the primitive and the step that come next there.
#[derive(Clone, Copy, PartialEq, Eq)]
pub struct Spot {
    pub token: usize,
    pub prim: u32,
    pub step: u32,
}

// A tree's value, and where the tokens after it begin.
#[derive(Clone, Copy, PartialEq, Eq)]
pub struct Judged {
    pub holds: bool,
    pub next: Spot,
}

fn join_bool(t: u8, a: bool, b: bool) -> bool
    ensures { result ≡ join_bool t a b }
{
    if t == 1 { a && b } else { a || b }
}

// The next primitive, of `count`, whose token is read already. Not inlined: what it holds would lie on the stack at every level of the tree.
#[inline(never)]
fn leaf_at(
    link: LinkType,
    parts: &Sections,
    frame: &[u8],
    count: u16,
    spot: Spot,
) -> Result<Judged, Refusal>
    requires { (spot.step ≡ steps_before parts.now.prims.now spot.prim) × (steps_before parts.now.prims.now count < 2 ^ 32) }
    ensures { told result ≡ leaf_of (primitive_holds link parts.now.steps.now parts.now.prims.now frame.now) (steps_before parts.now.prims.now) count spot.token spot.prim }
{
    let k = spot.prim;
    if u32::from(count) <= k {
        return Err(Reason::NotOneTree.at(0));
    }
    let prim = primitive_at(parts.prims, k);
    let holds = Packet { link, frame }.means(parts.steps, spot.step, prim);
    let taken = u32::from(takes_steps(parts.prims, k));
    let next = Spot {
        token: spot.token,
        prim: k + 1,
        step: spot.step + taken,
    };
    Ok(Judged { holds, next })
}

// The tree that begins at the spot, of at most `depth` levels; 9 if it is deeper, and 4, which is never met where the tokens are one tree.
pub(crate) fn eval_at(
    link: LinkType,
    parts: &Sections,
    frame: &[u8],
    count: u16,
    spot: Spot,
    depth: u16,
) -> Result<Judged, Refusal>
    requires { (spot.step ≡ steps_before parts.now.prims.now spot.prim) × (steps_before parts.now.prims.now count < 2 ^ 32) }
    ensures { told result ≡ eval_at (primitive_holds link parts.now.steps.now parts.now.prims.now frame.now) (steps_before parts.now.prims.now) count depth parts.now.tokens.now spot.token spot.prim }
{
    if depth == 0 {
        return Err(Reason::DeepTree.at(0));
    }
    let at = spot.token;
    if parts.tokens.len() <= at {
        return Err(Reason::NotOneTree.at(0));
    }
    let t = parts.tokens[at];
    let after = Spot {
        token: at + 1,
        ..spot
    };
    if t == 0 {
        return leaf_at(link, parts, frame, count, after);
    }
    let first = eval_at(link, parts, frame, count, after, depth - 1)?;
    if t == 3 {
        return Ok(Judged {
            holds: !first.holds,
            ..first
        });
    }
    let second = eval_at(link, parts, frame, count, first.next, depth - 1)?;
    Ok(Judged {
        holds: join_bool(t, first.holds, second.holds),
        ..second
    })
}
