// Port ranges, once R6 is at the transport header.
#![tactic(auto, using(crate::proofs::Laws::leading))]

ghost use Rattle.std.specs.Prelude.{◌≡◌};
ghost use Rattle.patches.specs.Code.{emission, block};
ghost use Rattle.pieces.specs.Fragments.{Fits, Leads, lead, sides};
ghost use Rattle.codegen.specs.Primitives.{check_range, emit_portrange};

use crate::ports::emit_port_prereqs;
use ebpf::insn::{Insn, R6};
use filter::ast::{AccessSize, Dir, Proto};
use patches::Codegen;
use pieces::guarded::push_failing;
use pieces::load::{jgt, jlt, push_load};

// The port at off lies in lo..=hi.
fn check_range(code: &mut Codegen, off: u32, lo: u16, hi: u16, end: u32)
    requires { Leads end (check_range code.old.mode code.old.link off lo hi) code.old.patches }
    ensures { emission code.new ≡ block (lead end code.old.patches.pos (check_range code.old.mode code.old.link off lo hi)) (emission code.old) }
{
    push_load(code, AccessSize::Half, R6, off);
    push_failing(code, jlt(code.mode, lo as u32), end);
    push_failing(code, jgt(code.mode, hi as u32), end);
}

// The checks of `emit_portrange`; the switch on the direction stays, as `check_addr4`'s does.
fn check_ranges(code: &mut Codegen, lo: u16, hi: u16, dir: Dir)
    requires { Fits (sides dir (check_range code.old.mode code.old.link 0 lo hi) (check_range code.old.mode code.old.link 2 lo hi)) code.old.patches }
    ensures { emission code.new ≡ block (sides dir (check_range code.old.mode code.old.link 0 lo hi) (check_range code.old.mode code.old.link 2 lo hi)) (emission code.old) }
{
    match dir {
        Dir::Src => check_range(code, 0, lo, hi, 0),
        Dir::Dst => check_range(code, 2, lo, hi, 0),
        Dir::SrcAndDst => {
            check_range(code, 0, lo, hi, 0);
            check_range(code, 2, lo, hi, 0);
        }
        Dir::SrcOrDst => {
            check_range(code, 0, lo, hi, code.patches.pos + 5);
            code.push_success(Insn::ja(0));
            check_range(code, 2, lo, hi, 0);
        }
    }
}

// `emit_portrange`.
pub(crate) fn emit_portrange(code: &mut Codegen, lo: u16, hi: u16, dir: Dir, proto: Option<Proto>)
    requires { Fits (emit_portrange code.old.mode code.old.link lo hi dir proto) code.old.patches }
    ensures { emission code.new ≡ block (emit_portrange code.old.mode code.old.link lo hi dir proto) (emission code.old) }
{
    emit_port_prereqs(code, proto);
    check_ranges(code, lo, hi, dir);
}
