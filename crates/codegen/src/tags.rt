// Multicast, broadcast and the tags behind the ethertype.
#![tactic(auto, using(crate::proofs::Laws::tags))]

ghost use Rattle.std.specs.Prelude.{◌≡◌};
ghost use Rattle.patches.specs.Code.{emission, block};
ghost use Rattle.pieces.specs.Fragments.{Fits};
ghost use Rattle.codegen.specs.Primitives.{emit_ether_multicast, emit_ip_broadcast, emit_ip_multicast, emit_ip6_multicast};
ghost use Rattle.codegen.specs.Primitives.{emit_vlan, emit_mpls, emit_pppoe_session};

use ebpf::insn::{Insn, R4};
use filter::ast::AccessSize;
use patches::Codegen;
use pieces::ether::{emit_ethertype, net_plus};
use pieces::guarded::{check, emit_load, emit_load_from};
use pieces::load::{jeq, jne, jset};

// `emit_ether_multicast`: bit 0 of byte 0.
pub(crate) fn emit_ether_multicast(code: &mut Codegen)
    requires { Fits (emit_ether_multicast code.old.mode code.old.link) code.old.patches }
    ensures { emission code.new ≡ block (emit_ether_multicast code.old.mode code.old.link) (emission code.old) }
{
    emit_load(code, AccessSize::Byte, 0);
    code.push_jump(jset(code.mode, 1), 1);
    code.push_failure(Insn::ja(0));
}

// `emit_ip_broadcast`; it and the next two stay three, by the Rust's names: what they share is in `emit_ethertype` and `check`.
pub(crate) fn emit_ip_broadcast(code: &mut Codegen)
    requires { Fits (emit_ip_broadcast code.old.mode code.old.link) code.old.patches }
    ensures { emission code.new ≡ block (emit_ip_broadcast code.old.mode code.old.link) (emission code.old) }
{
    emit_ethertype(code, 0x0800);
    check(code, AccessSize::Word, net_plus(code.link, 16), 0xffff_ffff);
}

// `emit_ip_multicast`.
pub(crate) fn emit_ip_multicast(code: &mut Codegen)
    requires { Fits (emit_ip_multicast code.old.mode code.old.link) code.old.patches }
    ensures { emission code.new ≡ block (emit_ip_multicast code.old.mode code.old.link) (emission code.old) }
{
    emit_ethertype(code, 0x0800);
    emit_load(code, AccessSize::Word, net_plus(code.link, 16));
    code.push(Insn::and32_imm(R4, 0xf000_0000));
    code.push_failure(jne(code.mode, 0xe000_0000));
}

// `emit_ip6_multicast`.
pub(crate) fn emit_ip6_multicast(code: &mut Codegen)
    requires { Fits (emit_ip6_multicast code.old.mode code.old.link) code.old.patches }
    ensures { emission code.new ≡ block (emit_ip6_multicast code.old.mode code.old.link) (emission code.old) }
{
    emit_ethertype(code, 0x86dd);
    check(code, AccessSize::Byte, net_plus(code.link, 24), 0xff);
}

// `emit_vlan`; a link without an ethertype is refused before.
pub(crate) fn emit_vlan(code: &mut Codegen, id: Option<u16>)
    requires { Fits (emit_vlan code.old.mode code.old.link id) code.old.patches }
    ensures { emission code.new ≡ block (emit_vlan code.old.mode code.old.link id) (emission code.old) }
{
    let off = code.link.ether_proto_offset();
    emit_ethertype(code, 0x8100);
    if let Some(id) = id
        && let Some(off) = off
    {
        emit_load_from(code, AccessSize::Half, off, 2);
        code.push(Insn::and32_imm(R4, 0x0fff));
        code.push_failure(jne(code.mode, id as u32));
    }
}

// `emit_mpls`: one of two ethertypes, then the label of the first entry; a link without an ethertype is refused before.
pub(crate) fn emit_mpls(code: &mut Codegen, label: Option<u32>)
    requires { Fits (emit_mpls code.old.mode code.old.link label) code.old.patches }
    ensures { emission code.new ≡ block (emit_mpls code.old.mode code.old.link label) (emission code.old) }
{
    let Some(off) = code.link.ether_proto_offset() else {
        return;
    };
    emit_load(code, AccessSize::Half, off);
    code.push_jump(jeq(code.mode, 0x8847), 1);
    code.push_failure(jne(code.mode, 0x8848));
    if let Some(label) = label {
        emit_load_from(code, AccessSize::Word, off, 2);
        code.push(Insn::rsh32_imm(R4, 12));
        code.push_failure(jne(code.mode, label));
    }
}

// `emit_pppoe_session`; a link without an ethertype is refused before.
pub(crate) fn emit_pppoe_session(code: &mut Codegen, id: Option<u16>)
    requires { Fits (emit_pppoe_session code.old.mode code.old.link id) code.old.patches }
    ensures { emission code.new ≡ block (emit_pppoe_session code.old.mode code.old.link id) (emission code.old) }
{
    let off = code.link.ether_proto_offset();
    emit_ethertype(code, 0x8864);
    if let Some(id) = id
        && let Some(off) = off
    {
        emit_load_from(code, AccessSize::Half, off, 4);
        code.push_failure(jne(code.mode, id as u32));
    }
}
