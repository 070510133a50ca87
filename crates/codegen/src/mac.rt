// MAC addresses: a number of 48 bits.
#![tactic(auto, using(crate::proofs::Laws::leading))]

ghost use Rattle.std.specs.Prelude.{◌≡◌, ◌≤◌};
ghost use Rattle.patches.specs.Code.{emission, block};
ghost use Rattle.pieces.specs.Fragments.{Fits, Leads, lead};
ghost use Rattle.codegen.specs.Primitives.{check_mac, emit_ether_host};

use ebpf::insn::Insn;
use filter::ast::{AccessSize, Dir};
use patches::Codegen;
use pieces::guarded::check_to;

// The first four bytes of an address, then the last two.
fn check_mac(code: &mut Codegen, off: u32, addr: u64, end: u32)
    requires leads { Leads end (check_mac code.old.mode code.old.link off addr) code.old.patches }
    requires off_bound { off ≤ 6 }
    ensures { emission code.new ≡ block (lead end code.old.patches.pos (check_mac code.old.mode code.old.link off addr)) (emission code.old) }
{
    let word = (addr >> 16 & 0xffff_ffff) as u32;
    let half = (addr & 0xffff) as u32;
    check_to(code, AccessSize::Word, off, word, end);
    check_to(code, AccessSize::Half, off + 4, half, end);
}

// `emit_ether_host`: the destination at 0 comes first; a link without Ethernet is refused before. Its switch on the direction stays, as `check_addr4`'s does.
pub(crate) fn emit_ether_host(code: &mut Codegen, addr: u64, dir: Dir)
    requires { Fits (emit_ether_host code.old.mode code.old.link addr dir) code.old.patches }
    ensures { emission code.new ≡ block (emit_ether_host code.old.mode code.old.link addr dir) (emission code.old) }
{
    match dir {
        Dir::Src => check_mac(code, 6, addr, 0),
        Dir::Dst => check_mac(code, 0, addr, 0),
        Dir::SrcAndDst => {
            check_mac(code, 0, addr, 0);
            check_mac(code, 6, addr, 0);
        }
        Dir::SrcOrDst => {
            check_mac(code, 0, addr, code.patches.pos + 13);
            code.push_success(Insn::ja(0));
            check_mac(code, 6, addr, 0);
        }
    }
}
