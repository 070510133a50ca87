// Ethertype and the protocols above it.
ghost use Rattle.std.specs.Prelude.{◌≡◌, ◌+◌};
ghost use Rattle.patches.specs.Code.{emission, block};
ghost use Rattle.filter.specs.Ast.{net_offset};
ghost use Rattle.pieces.specs.Fragments.{Fits, emit_ethertype, emit_ip4_l4, emit_ip6_l4, dual_at, emit_dual_l4};

use crate::guarded::{check, emit_load};
use crate::load::{jeq, jne};
use ebpf::insn::Insn;
use filter::ast::{AccessSize, LinkType};
use patches::Codegen;

// So many bytes past the start of the network header.
pub fn net_plus(link: LinkType, k: u8) -> u32
    ensures { result ≡ net_offset link + k }
{
    link.net_offset() + k as u32
}

// `emit_ethertype`; on a link without one, IPv4 is implicit and the others are refused before.
pub fn emit_ethertype(code: &mut Codegen, et: u32)
    requires { Fits (emit_ethertype code.old.mode code.old.link et) code.old.patches }
    ensures { emission code.new ≡ block (emit_ethertype code.old.mode code.old.link et) (emission code.old) }
{
    if let Some(off) = code.link.ether_proto_offset() {
        check(code, AccessSize::Half, off, et);
    }
}

// `emit_ip4_l4`; it and the next stay two, as in the Rust: one with the ethertype and the place would be no plainer.
pub fn emit_ip4_l4(code: &mut Codegen, proto: u32)
    requires { Fits (emit_ip4_l4 code.old.mode code.old.link proto) code.old.patches }
    ensures { emission code.new ≡ block (emit_ip4_l4 code.old.mode code.old.link proto) (emission code.old) }
{
    emit_ethertype(code, 0x0800);
    check(code, AccessSize::Byte, net_plus(code.link, 9), proto);
}

// `emit_ip6_l4`.
pub fn emit_ip6_l4(code: &mut Codegen, next: u32)
    requires { Fits (emit_ip6_l4 code.old.mode code.old.link next) code.old.patches }
    ensures { emission code.new ≡ block (emit_ip6_l4 code.old.mode code.old.link next) (emission code.old) }
{
    emit_ethertype(code, 0x86dd);
    check(code, AccessSize::Byte, net_plus(code.link, 6), next);
}

// IPv6's block and IPv4's, of which the ethertype picks one.
fn emit_dual_at(code: &mut Codegen, off: u32, proto: u32)
    requires { Fits (dual_at code.old.mode (Some off) code.old.link proto) code.old.patches }
    ensures { emission code.new ≡ block (dual_at code.old.mode (Some off) code.old.link proto) (emission code.old) }
{
    emit_load(code, AccessSize::Half, off);
    code.push_jump(jeq(code.mode, 0x0800), 7);
    code.push_failure(jne(code.mode, 0x86dd));
    check(code, AccessSize::Byte, net_plus(code.link, 6), proto);
    code.push_jump(Insn::ja(0), 5);
    check(code, AccessSize::Byte, net_plus(code.link, 9), proto);
}

// `emit_dual_l4`.
pub fn emit_dual_l4(code: &mut Codegen, proto: u32)
    requires { Fits (emit_dual_l4 code.old.mode code.old.link proto) code.old.patches }
    ensures { emission code.new ≡ block (emit_dual_l4 code.old.mode code.old.link proto) (emission code.old) }
{
    match code.link.ether_proto_offset() {
        Some(off) => emit_dual_at(code, off, proto),
        None => emit_ip4_l4(code, proto),
    }
}
