// `emit_expr` and `compile` of ebpf_codegen.rs: the walk over the tokens, and the whole program.
#![tactic(auto)]

ghost use Rattle.std.specs.Prelude.{◌≡◌, [], ◌+◌, ◌*◌, ◌^◌, ◌<◌, ◌≤◌, length};
ghost use Rattle.refusals.specs.Refusal.{told};
ghost use Rattle.patches.specs.Chain.{Descends, chain_of};
ghost use Rattle.patches.specs.Code.{emission, block};
ghost use Rattle.patches.specs.Machine.{size_of, LeafOk, run, cost};
ghost use Rattle.patches.specs.Rel.{Some, SomeLeaf};
ghost use Rattle.patches.specs.Same.{SameFrom, Kept, zeroed};
ghost use Rattle.patches.specs.Listing.{compile_l};
ghost use Rattle.patches.specs.Whole.{prologue, epilogue, compiled, ended};
ghost use Rattle.tree.specs.Tree.{tree_of};
ghost use Rattle.pieces.specs.Fragments.{Fits};
ghost use Rattle.generator.specs.Template.{template_of, template};
ghost use Rattle.generator.specs.Compile.{written_to, WalkOk, TryOk, Sized, outcome_of, answer_of, output_after, work_after};
ghost use Rattle.generator.specs.Compile.Outcome.{late};

use checks::check::takes_steps;
use checks::measure::admit;
use checks::refusal::refusal_of;
use codegen::primitive::emit_primitive;
use ebpf::insn::{Insn, R0, R1, R2, R3};
use filter::ast::{LinkType, Primitive};
use filter::record::primitive_at;
use filter::sheet::Sections;
use patches::{Codegen, NONE, Patches};
use refusals::{Reason, Refusal};

// What the program returns to the kernel for a frame that passes, and for one that does not.
const XDP_PASS: u32 = 2;

const XDP_DROP: u32 = 1;

// A primitive, the k-th, and the operators that it ends: the number of those that wait then.
// `steps` and `from` stay two: the part is all primitives', `from` counts on over them, and a struct would be built anew for each.
fn emit_operand(
    code: &mut Codegen,
    l: usize,
    n: usize,
    k: u32,
    steps: &[u8],
    from: u32,
    prim: Primitive,
) -> Result<usize, Refusal>
    requires some_leaf { SomeLeaf l code.old.work.now n code.old.patches (size_of (template_of code.old.mode code.old.link steps.now from prim)) }
    requires l_in_bounds { (8 * l ≤ length code.old.out.now) × (l < 2 ^ 32) }
    ensures leaf_ok { LeafOk l n k (template_of code.old.mode code.old.link steps.now from prim) (emission code.old) result (emission code.new) }
    ensures kept { Kept (emission code.old) (emission code.new) }
    ensures same_from { SameFrom (8 * l) code.old.out.now code.new.out.now }
    ensures same_from_2 { SameFrom (l + 3 * n) code.old.work.now code.new.work.now }
{
    if let Err(reason) = refusal_of(code.link, steps, from, prim) {
        return Err(reason.at(k as usize));
    }
    emit_primitive(code, steps, from, prim);
    code.finish(l, n)
}

// `emit_expr`: the tokens in order, from place 2 on; a token other than 0 is an operator that begins to wait.
fn emit_expr(code: &mut Codegen, l: usize, parts: Sections) -> Result<(), Refusal>
    requires begun { code.old.patches ≡ written_to 2 }
    requires descends { Descends l code.old.work.now }
    requires tokens_bound { (2 + cost (template code.old.mode code.old.link parts.steps.now parts.prims.now) parts.tokens.now 0 + 4 ≤ l) × (l < 2 ^ 32) × (l + 3 * length parts.tokens.now ≤ length code.old.work.now) × (8 * l ≤ length code.old.out.now) × (length parts.tokens.now < 2 ^ 16) }
    ensures walk_ok { WalkOk l (run (template code.old.mode code.old.link parts.entry.steps.now parts.entry.prims.now) parts.entry.tokens.now 0 2 code.old.out.now []) result (emission code.new) }
    ensures kept { Kept (emission code.old) (emission code.new) }
    ensures same_from { SameFrom (8 * l) code.old.out.now code.new.out.now }
    ensures same_from_2 { SameFrom (l + 3 * length parts.entry.tokens.now) code.old.work.now code.new.work.now }
{
    let mut n = 0;
    let mut k: u32 = 0;
    let mut from: u32 = 0;
    for &t in parts.tokens {
        if t != 0 {
            code.save(l + 3 * n, t as u32, NONE);
            n += 1;
            continue;
        }
        n = emit_operand(
            code,
            l,
            n,
            k,
            parts.steps,
            from,
            primitive_at(parts.prims, k),
        )?;
        if n == 0 {
            return Ok(());
        }
        from += takes_steps(parts.prims, k) as u32;
        k += 1;
    }
    Err(Reason::NotOneTree.at(0))
}

// `emit_prologue`: `data` into R2, `data_end` into R3.
#[tactic(auto, using(pieces::proofs::Laws::laws), unfolding(patches::specs::Whole::prologue))]
fn emit_prologue(code: &mut Codegen)
    requires { Fits prologue code.old.patches }
    ensures { emission code.new ≡ block prologue (emission code.old) }
{
    code.push(Insn::ldx_w(R2, R1, 0));
    code.push(Insn::ldx_w(R3, R1, 4));
}

// The accept path, then the drop path.
#[tactic(auto, using(pieces::proofs::Laws::laws), unfolding(patches::specs::Whole::epilogue))]
fn emit_exits(code: &mut Codegen)
    requires { Fits epilogue code.old.patches }
    ensures { emission code.new ≡ block epilogue (emission code.old) }
{
    code.push(Insn::mov64_imm(R0, XDP_PASS));
    code.push(Insn::exit());
    code.push(Insn::mov64_imm(R0, XDP_DROP));
    code.push(Insn::exit());
}

// The exits are written; successes lead to accept, failures to drop.
fn end(code: &mut Codegen, l: usize) -> Result<(), Refusal>
    requires some { Some l code.old.work.now 0 code.old.patches }
    requires pos_bound { (code.old.patches.pos + 4 ≤ l) × (8 * l ≤ length code.old.out.now) × (l < 2 ^ 32) }
    ensures try_ok { TryOk (ended code.old.out.now code.old.patches.pos (chain_of code.old.work.now code.old.patches.success.head) (chain_of code.old.work.now code.old.patches.failure.head)) result code.new.out.now }
    ensures kept { Kept (emission code.old) (emission code.new) }
    ensures same_from { SameFrom (8 * l) code.old.out.now code.new.out.now }
    ensures work_unchanged { code.new.work.now ≡ code.old.work.now }
{
    let Patches {
        pos,
        success,
        failure,
    } = code.patches;
    let accept = pos as usize;
    emit_exits(code);
    code.resolve_all(l, success.head as usize, accept)?;
    code.resolve_all(l, failure.head as usize, accept + 2)?;
    Ok(())
}

// The program, or a refusal that leaves output and work as they fall.
fn emit_program(code: &mut Codegen, l: usize, parts: Sections) -> Result<(), Refusal>
    requires begun { code.old.patches ≡ written_to 0 }
    requires descends { Descends l code.old.work.now }
    requires tokens_bound { (2 + cost (template code.old.mode code.old.link parts.steps.now parts.prims.now) parts.tokens.now 0 + 4 ≤ l) × (l < 2 ^ 32) × (l + 3 * length parts.tokens.now ≤ length code.old.work.now) × (8 * l ≤ length code.old.out.now) × (length parts.tokens.now < 2 ^ 16) }
    ensures try_ok { TryOk (compiled (template code.old.mode code.old.link parts.entry.steps.now parts.entry.prims.now) parts.entry.tokens.now code.old.out.now) result code.new.out.now }
    ensures same_out { code.new.out.ghost_name ≡ code.old.out.ghost_name }
    ensures same_work { code.new.work.ghost_name ≡ code.old.work.ghost_name }
    ensures same_from { SameFrom (8 * l) code.old.out.now code.new.out.now }
    ensures same_from_2 { SameFrom (l + 3 * length parts.entry.tokens.now) code.old.work.now code.new.work.now }
{
    emit_prologue(code);
    emit_expr(code, l, parts)?;
    end(code, l)
}

// The same in lent places, from nothing written; the mode is any byte, as in `Codegen`.
fn write_program(
    out: &mut [u8],
    work: &mut [u32],
    l: usize,
    mode: u8,
    link: LinkType,
    parts: Sections,
) -> Result<(), Refusal>
    requires descends { Descends l work.old }
    requires tokens_bound { (2 + cost (template mode link parts.steps.now parts.prims.now) parts.tokens.now 0 + 4 ≤ l) × (l < 2 ^ 32) × (l + 3 * length parts.tokens.now ≤ length work.old) × (8 * l ≤ length out.old) × (length parts.tokens.now < 2 ^ 16) }
    ensures try_ok { TryOk (compiled (template mode link parts.entry.steps.now parts.entry.prims.now) parts.entry.tokens.now out.old) result out.new }
    ensures same_from { SameFrom (8 * l) out.old out.new }
    ensures same_from_2 { SameFrom (l + 3 * length parts.entry.tokens.now) work.old work.new }
{
    let mut code = Codegen {
        out,
        work,
        patches: Patches {
            pos: 0,
            success: NONE,
            failure: NONE,
        },
        mode,
        link,
    };
    emit_program(&mut code, l, parts)
}

// Past refusal 8: after a refusal the first 8 x L bytes are zero; the first L + 8 x tokens numbers end as zero.
fn generate(
    out: &mut [u8],
    work: &mut [u32],
    l: usize,
    mode: u8,
    link: LinkType,
    parts: Sections,
) -> Result<usize, Refusal>
    requires sized { Sized mode link parts.steps.now parts.prims.now parts.tokens.now l }
    requires l_in_bounds { (8 * l ≤ length out.old) × (l + 8 * length parts.tokens.now ≤ length work.old) }
    ensures value { told result ≡ answer_of (late l (length parts.entry.tokens.now) (compile_l (template mode link parts.entry.steps.now parts.entry.prims.now) (tree_of parts.entry.tokens.now))) }
    ensures out_after { out.new ≡ output_after (late l (length parts.entry.tokens.now) (compile_l (template mode link parts.entry.steps.now parts.entry.prims.now) (tree_of parts.entry.tokens.now))) out.old }
    ensures work_after { work.new ≡ zeroed (l + 8 * length parts.entry.tokens.now) work.old }
{
    let m = l + 8 * parts.tokens.len();
    work[..m].fill(0);
    let done = write_program(out, work, l, mode, link, parts);
    work[..m].fill(0);
    match done {
        Ok(()) => Ok(l),
        Err(refusal) => {
            out[..8 * l].fill(0);
            Err(refusal)
        }
    }
}

// `compile`: any sheet, any link and mode, any output and work; each section is handed on as its own part of the sheet.
pub fn compile(
    sheet: &[u8],
    link: u8,
    mode: u8,
    output: &mut [u8],
    work: &mut [u32],
) -> Result<usize, Refusal>
    ensures value { told result ≡ answer_of (outcome_of sheet.now link mode (length output.old) (length work.old)) }
    ensures output_after { output.new ≡ output_after (outcome_of sheet.now link mode (length output.old) (length work.old)) output.old }
    ensures work_after { work.new ≡ work_after (outcome_of sheet.now link mode (length output.old) (length work.old)) work.old }
{
    let asked = admit(sheet, link, mode, output.len() as u64, work.len() as u64)?;
    let parts = asked.counts.sections(sheet);
    generate(
        output,
        work,
        asked.length as usize,
        mode,
        LinkType::from(link),
        parts,
    )
}
