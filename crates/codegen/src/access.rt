// Length and byte access.
#![tactic(auto, using(crate::proofs::Laws::accesses))]

ghost use Rattle.std.specs.Prelude.{◌≡◌};
ghost use Rattle.patches.specs.Code.{emission, block};
ghost use Rattle.filter.specs.declared.ast.Layer.TheVariants.{Trans};
ghost use Rattle.pieces.specs.Fragments.{Fits};
ghost use Rattle.codegen.specs.Primitives.{emit_len, steps_and_cmp, access_at_code, emit_byte_access};

use ebpf::insn::{Insn, R2, R3, R4, R6};
use filter::ast::{ByteAccess, CmpOp, CmpRhs, Layer};
use patches::Codegen;
use pieces::guarded::{emit_load, emit_load_from, push_guard};
use pieces::load::{end_of, push_load};
use pieces::steps::{emit_cmp, emit_steps, emit_transport};

// `emit_len`: the frame's length is R3 - R2.
pub(crate) fn emit_len(code: &mut Codegen, op: CmpOp, value: u32)
    requires { Fits (emit_len code.old.mode code.old.link op value) code.old.patches }
    ensures { emission code.new ≡ block (emit_len code.old.mode code.old.link op value) (emission code.old) }
{
    code.push(Insn::mov64_reg(R4, R3));
    code.push(Insn::sub64_reg(R4, R2));
    emit_cmp(code, op, value);
}

// The steps, then the comparison. `steps` and `from` stay two: the part is all primitives', `from` counts on over them, and a struct would be built anew for each.
fn emit_steps_and_cmp(code: &mut Codegen, steps: &[u8], from: u32, x: ByteAccess, value: u32)
    requires { Fits (steps_and_cmp code.old.mode code.old.link steps.now from x value) code.old.patches }
    ensures { emission code.new ≡ block (steps_and_cmp code.old.mode code.old.link steps.now from x value) (emission code.old) }
{
    emit_steps(code, steps, x.steps, from);
    emit_cmp(code, x.op, value);
}

// `emit_trans_byte_access`.
fn emit_trans_byte_access(code: &mut Codegen, steps: &[u8], from: u32, x: ByteAccess, value: u32)
    requires { Fits (access_at_code code.old.mode code.old.link steps.now from Trans x value) code.old.patches }
    ensures { emission code.new ≡ block (access_at_code code.old.mode code.old.link steps.now from Trans x value) (emission code.old) }
{
    emit_transport(code, code.link.net_offset());
    push_guard(code, R6, end_of(x.size, x.offset));
    push_load(code, x.size, R6, x.offset);
    emit_steps_and_cmp(code, steps, from, x, value);
}

// `emit_byte_access`: the load at the layer's place, then the steps and the comparison; one with a second load is refused before.
pub(crate) fn emit_byte_access(code: &mut Codegen, steps: &[u8], from: u32, x: ByteAccess)
    requires { Fits (emit_byte_access code.old.mode code.old.link steps.now from x) code.old.patches }
    ensures { emission code.new ≡ block (emit_byte_access code.old.mode code.old.link steps.now from x) (emission code.old) }
{
    let CmpRhs::Const(value) = x.rhs else {
        return;
    };
    match x.layer {
        Layer::Raw => {
            emit_load(code, x.size, x.offset);
            emit_steps_and_cmp(code, steps, from, x, value);
        }
        Layer::Net => {
            emit_load_from(code, x.size, code.link.net_offset(), x.offset);
            emit_steps_and_cmp(code, steps, from, x, value);
        }
        Layer::Trans => emit_trans_byte_access(code, steps, from, x, value),
    }
}
