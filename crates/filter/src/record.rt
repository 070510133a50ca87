// The records of the sheet: which byte is wrong, and what a record says. Every reader takes any bytes.
#![tactic(auto, unfolding(crate::specs::Record::ipv6_at, crate::specs::Record::ip_net_at, crate::specs::Record::ipv6_net_at, crate::specs::Record::id_at, crate::specs::Record::label_at, crate::specs::Record::load_at, crate::specs::Record::rhs_at, crate::specs::Record::access_at, crate::specs::Record::dir_at, crate::specs::Record::proto_at, crate::specs::Record::host_at, crate::specs::Record::host6_at, crate::specs::Record::port_at, crate::specs::Record::range_at, crate::specs::Record::net_at, crate::specs::Record::net6_at, crate::specs::Record::ether_host_at, crate::specs::Record::mpls_at, crate::specs::Record::session_at, crate::specs::Record::len_at, crate::specs::Record::decode_at, crate::specs::Record::step_at))]

ghost use Rattle.std.specs.Prelude.{◌≡◌, ◌+◌, ◌*◌};
ghost use Rattle.filter.specs.Record.{ipv6_at, ip_net_at, ipv6_net_at, id_at, label_at, load_at, rhs_at, access_at, dir_at, proto_at, host_at, host6_at, port_at, range_at, net_at, net6_at, ether_host_at, mpls_at, session_at, len_at, decode_at, step_at};

use crate::ast::{
    AccessSize, ArithOp, ByteAccess, ByteLoad, CmpOp, CmpRhs, Dir, IpNet, Ipv6Addr, Ipv6Net, Layer,
    Primitive, Proto, Step,
};
use crate::bytes::{Record, step_code, step_operand};

// A reader for each form: they differ in the fields and their bytes, which a parameter would not say more plainly.
impl Record<'_> {
    fn ipv6(self) -> Ipv6Addr
        ensures { result ≡ ipv6_at self.entry.part.now (24 * self.entry.i) }
    {
        Ipv6Addr {
            hi: self.long(8),
            lo: self.long(16),
        }
    }

    fn ip_net(self) -> IpNet
        ensures { result ≡ ip_net_at self.entry.part.now (24 * self.entry.i) }
    {
        IpNet {
            addr: self.word(4),
            mask: self.word(8),
        }
    }

    fn ipv6_net(self) -> Ipv6Net
        ensures { result ≡ ipv6_net_at self.entry.part.now (24 * self.entry.i) }
    {
        Ipv6Net {
            addr: self.ipv6(),
            prefix_len: self.byte(2),
        }
    }

    fn id(self) -> Option<u16>
        ensures { result ≡ id_at self.entry.part.now (24 * self.entry.i) }
    {
        (self.byte(2) != 0).then_some(self.half(6))
    }

    fn label(self) -> Option<u32>
        ensures { result ≡ label_at self.entry.part.now (24 * self.entry.i) }
    {
        (self.byte(2) != 0).then_some(self.word(4))
    }

    fn load(self) -> ByteLoad
        ensures { result ≡ load_at self.entry.part.now (24 * self.entry.i) }
    {
        ByteLoad {
            layer: Layer::from(self.byte(15)),
            offset: self.word(17),
            size: AccessSize::from(self.byte(16)),
        }
    }

    fn rhs(self) -> CmpRhs
        ensures { result ≡ rhs_at self.entry.part.now (24 * self.entry.i) }
    {
        if self.byte(14) == 0 {
            CmpRhs::Const(self.word(8))
        } else {
            CmpRhs::Load(self.load())
        }
    }

    fn access(self) -> ByteAccess
        ensures { result ≡ access_at self.entry.part.now (24 * self.entry.i) }
    {
        ByteAccess {
            layer: Layer::from(self.byte(1)),
            offset: self.word(4),
            size: AccessSize::from(self.byte(3)),
            steps: self.half(12),
            op: CmpOp::from(self.byte(2)),
            rhs: self.rhs(),
        }
    }

    fn dir(self) -> Dir
        ensures { result ≡ dir_at self.entry.part.now (24 * self.entry.i) }
    {
        Dir::from(self.byte(1))
    }

    fn proto(self) -> Option<Proto>
        ensures { result ≡ proto_at self.entry.part.now (24 * self.entry.i) }
    {
        Proto::maybe_of(self.byte(2), self.byte(3))
    }

    fn host(self) -> Primitive
        ensures { result ≡ host_at self.entry.part.now (24 * self.entry.i) }
    {
        Primitive::Host {
            addr: self.word(4),
            dir: self.dir(),
        }
    }

    fn host6(self) -> Primitive
        ensures { result ≡ host6_at self.entry.part.now (24 * self.entry.i) }
    {
        Primitive::Host6 {
            addr: self.ipv6(),
            dir: self.dir(),
        }
    }

    fn port(self) -> Primitive
        ensures { result ≡ port_at self.entry.part.now (24 * self.entry.i) }
    {
        Primitive::Port {
            port: self.half(6),
            dir: self.dir(),
            proto: self.proto(),
        }
    }

    fn range(self) -> Primitive
        ensures { result ≡ range_at self.entry.part.now (24 * self.entry.i) }
    {
        Primitive::PortRange {
            lo: self.half(4),
            hi: self.half(6),
            dir: self.dir(),
            proto: self.proto(),
        }
    }

    fn net(self) -> Primitive
        ensures { result ≡ net_at self.entry.part.now (24 * self.entry.i) }
    {
        Primitive::Net {
            net: self.ip_net(),
            dir: self.dir(),
        }
    }

    fn net6(self) -> Primitive
        ensures { result ≡ net6_at self.entry.part.now (24 * self.entry.i) }
    {
        Primitive::Net6 {
            net: self.ipv6_net(),
            dir: self.dir(),
        }
    }

    fn ether_host(self) -> Primitive
        ensures { result ≡ ether_host_at self.entry.part.now (24 * self.entry.i) }
    {
        Primitive::EtherHost {
            addr: self.mac(8),
            dir: self.dir(),
        }
    }

    fn mpls(self) -> Primitive
        ensures { result ≡ mpls_at self.entry.part.now (24 * self.entry.i) }
    {
        Primitive::Mpls {
            label: self.label(),
        }
    }

    fn session(self) -> Primitive
        ensures { result ≡ session_at self.entry.part.now (24 * self.entry.i) }
    {
        Primitive::PppoeSession {
            session_id: self.id(),
        }
    }

    fn len(self) -> Primitive
        ensures { result ≡ len_at self.entry.part.now (24 * self.entry.i) }
    {
        Primitive::Len {
            op: CmpOp::from(self.byte(2)),
            value: self.word(4),
        }
    }
}

// The byte access of record i, which is of kind 23. It takes part and number, as its callers have them: a `Record` made there is no plainer.
pub fn access_at(part: &[u8], i: u32) -> ByteAccess
    ensures { result ≡ access_at part.now (24 * i) }
{
    Record { part, i }.access()
}

// The primitive of record i, by part and number as above. Inlined: a call costs a chain of hosts 2%.
#[inline(always)]
pub fn primitive_at(part: &[u8], i: u32) -> Primitive
    ensures { result ≡ decode_at part.now (24 * i) }
{
    let r = Record { part, i };
    match r.kind() {
        1 => r.host(),
        2 => r.host6(),
        3 => r.port(),
        4 => r.range(),
        5 => r.net(),
        6 => r.net6(),
        7 => Primitive::Proto(Proto::of(r.byte(2), r.byte(3))),
        8 => r.ether_host(),
        9 => Primitive::EtherProto(r.half(6)),
        10 => Primitive::EtherMulticast,
        11 => Primitive::IpBroadcast,
        12 => Primitive::IpMulticast,
        13 => Primitive::Ip6Multicast,
        14 => Primitive::Vlan { id: r.id() },
        15 => r.mpls(),
        16 => Primitive::PppoeDiscovery,
        17 => r.session(),
        18 => Primitive::IpProtoChain(r.byte(2)),
        19 => Primitive::Ip6ProtoChain(r.byte(2)),
        20 => r.len(),
        21 => Primitive::Inbound,
        23 => Primitive::ByteAccess(r.access()),
        _ => Primitive::Outbound,
    }
}

// The step k places after step `from`.
pub fn step_at(part: &[u8], from: u32, k: u16) -> Step
    ensures { result ≡ step_at part.now (5 * (from + k)) }
{
    Step {
        op: ArithOp::from(step_code(part, from, k)),
        operand: step_operand(part, from, k),
    }
}
