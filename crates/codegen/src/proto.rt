// Protocols by name and number.
ghost use Rattle.std.specs.Prelude.{◌≡◌};
ghost use Rattle.patches.specs.Code.{emission, block};
ghost use Rattle.pieces.specs.Fragments.{Fits};
ghost use Rattle.codegen.specs.Primitives.{emit_proto};

use filter::ast::Proto;
use patches::Codegen;
use pieces::ether::{emit_dual_l4, emit_ethertype, emit_ip4_l4, emit_ip6_l4};

// `emit_proto`.
pub(crate) fn emit_proto(code: &mut Codegen, proto: Proto)
    requires { Fits (emit_proto code.old.mode code.old.link proto) code.old.patches }
    ensures { emission code.new ≡ block (emit_proto code.old.mode code.old.link proto) (emission code.old) }
{
    match proto {
        Proto::Ip => emit_ethertype(code, 0x0800),
        Proto::Ip6 => emit_ethertype(code, 0x86dd),
        Proto::Arp => emit_ethertype(code, 0x0806),
        Proto::Rarp => emit_ethertype(code, 0x8035),
        Proto::Tcp => emit_dual_l4(code, 6),
        Proto::Udp => emit_dual_l4(code, 17),
        Proto::Sctp => emit_dual_l4(code, 132),
        Proto::Icmp => emit_ip4_l4(code, 1),
        Proto::Igmp => emit_ip4_l4(code, 2),
        Proto::Icmp6 => emit_ip6_l4(code, 58),
        Proto::Num(n) => emit_ip4_l4(code, n as u32),
        Proto::Ip6Proto(n) => emit_ip6_l4(code, n as u32),
    }
}
