// What a primitive means.
#![tactic(auto, unfolding(crate::specs::Meaning::means))]

ghost use Rattle.std.specs.Prelude.{◌≡◌, length};
ghost use Rattle.meaning.specs.Meaning.{means};

use crate::access::compared;
use crate::frame::passes;
use crate::packet::Packet;
use filter::ast::{Ipv6Net, Primitive};

impl Packet<'_> {
    // The primitive's steps start at step j. The evaluator asks this of refused primitives too, and then gives the refusal.
    pub fn means(self, steps: &[u8], j: u32, prim: Primitive) -> bool
        ensures { result ≡ means self.entry.link self.entry.frame.now steps.now j prim }
    {
        match prim {
            Primitive::Host { addr, dir } => self.host4(addr, dir),
            Primitive::Host6 { addr, dir } => {
                let prefix_len = 128;
                self.net6(Ipv6Net { addr, prefix_len }, dir)
            }
            Primitive::Port { port, dir, proto } => self.ports(port, port, dir, proto),
            Primitive::PortRange { lo, hi, dir, proto } => self.ports(lo, hi, dir, proto),
            Primitive::Net { net, dir } => self.net4(net, dir),
            Primitive::Net6 { net, dir } => self.net6(net, dir),
            Primitive::Proto(proto) => self.protocol(proto),
            Primitive::EtherHost { addr, dir } => self.ether_host(addr, dir),
            Primitive::EtherProto(x) => self.ethertype(x),
            Primitive::EtherMulticast => passes(self.frame, 1, 0, 0, |b| b % 2 == 1),
            Primitive::IpBroadcast => self.ip_word(16, 0xffff_ffff),
            Primitive::IpMulticast => self.ip_class(16, 14),
            Primitive::Ip6Multicast => self.ip6_byte(24, 0xff),
            Primitive::Vlan { id } => self.vlan(id),
            Primitive::Mpls { label } => self.mpls(label),
            Primitive::PppoeDiscovery => self.ethertype(0x8863),
            Primitive::PppoeSession { session_id } => self.pppoe(session_id),
            Primitive::IpProtoChain(p) => self.ip4_proto(p),
            Primitive::Ip6ProtoChain(p) => self.ip6_proto(p),
            Primitive::Len { op, value } => compared(op, self.frame.len() as u64, value as u64),
            Primitive::Inbound | Primitive::Outbound => false,
            Primitive::ByteAccess(x) => self.byte_access(steps, j, x),
        }
    }
}
