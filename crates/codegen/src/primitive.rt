// `emit_primitive`: the code of one primitive. A primitive that is refused never comes here.
ghost use Rattle.std.specs.Prelude.{◌≡◌};
ghost use Rattle.patches.specs.Code.{emission, block};
ghost use Rattle.pieces.specs.Fragments.{Fits};
ghost use Rattle.codegen.specs.Primitives.{emit_primitive};

use crate::access::{emit_byte_access, emit_len};
use crate::address::{emit_host4, emit_net};
use crate::ip6::emit_net6;
use crate::mac::emit_ether_host;
use crate::ports::emit_port;
use crate::proto::emit_proto;
use crate::ranges::emit_portrange;
use crate::tags::{
    emit_ether_multicast, emit_ip_broadcast, emit_ip_multicast, emit_ip6_multicast, emit_mpls,
    emit_pppoe_session, emit_vlan,
};
use filter::ast::Primitive;
use patches::Codegen;
use pieces::ether::{emit_ethertype, emit_ip4_l4, emit_ip6_l4};

// The steps of a byte access begin at step `from`; `inbound` and `outbound` are refused before.
pub fn emit_primitive(code: &mut Codegen, steps: &[u8], from: u32, prim: Primitive)
    requires { Fits (emit_primitive code.old.mode code.old.link steps.now from prim) code.old.patches }
    ensures { emission code.new ≡ block (emit_primitive code.old.mode code.old.link steps.now from prim) (emission code.old) }
{
    match prim {
        Primitive::Proto(p) => emit_proto(code, p),
        Primitive::Host { addr, dir } => emit_host4(code, addr, dir),
        Primitive::Host6 { addr, dir } => emit_net6(code, addr, 128, dir),
        Primitive::Net { net, dir } => emit_net(code, net, dir),
        Primitive::Net6 { net, dir } => emit_net6(code, net.addr, net.prefix_len, dir),
        Primitive::Port { port, dir, proto } => emit_port(code, port, dir, proto),
        Primitive::PortRange { lo, hi, dir, proto } => emit_portrange(code, lo, hi, dir, proto),
        Primitive::EtherHost { addr, dir } => emit_ether_host(code, addr, dir),
        Primitive::EtherProto(et) => emit_ethertype(code, et as u32),
        Primitive::EtherMulticast => emit_ether_multicast(code),
        Primitive::IpBroadcast => emit_ip_broadcast(code),
        Primitive::IpMulticast => emit_ip_multicast(code),
        Primitive::Ip6Multicast => emit_ip6_multicast(code),
        Primitive::Vlan { id } => emit_vlan(code, id),
        Primitive::Mpls { label } => emit_mpls(code, label),
        Primitive::PppoeDiscovery => emit_ethertype(code, 0x8863),
        Primitive::PppoeSession { session_id } => emit_pppoe_session(code, session_id),
        Primitive::IpProtoChain(n) => emit_ip4_l4(code, n as u32),
        Primitive::Ip6ProtoChain(n) => emit_ip6_l4(code, n as u32),
        Primitive::Len { op, value } => emit_len(code, op, value),
        Primitive::ByteAccess(x) => emit_byte_access(code, steps, from, x),
        Primitive::Inbound | Primitive::Outbound => {}
    }
}
