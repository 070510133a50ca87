// Refusals 11 to 19: the first error that the Rust meets inside a primitive.
#![tactic(auto, unfolding(crate::specs::Refusal::unless_ether, crate::specs::Refusal::unless_macs, crate::specs::Refusal::ether_refusal, crate::specs::Refusal::proto_refusal, crate::specs::Refusal::l4_refusal, crate::specs::Refusal::port_refusal, crate::specs::Refusal::op_refusal, crate::specs::Refusal::step_refusal, crate::specs::Refusal::rhs_refusal, crate::specs::Refusal::access_refusal, crate::specs::Refusal::refusal))]

ghost use Rattle.std.specs.Prelude.{◌≡◌, ◌+◌, ◌*◌};
ghost use Rattle.refusals.specs.Refusal.{earned, number_of};
ghost use Rattle.filter.specs.Record.{step_at};
ghost use Rattle.checks.specs.Refusal.{unless_ether, unless_macs, ether_refusal, proto_refusal, l4_refusal, port_refusal, op_refusal, step_refusal, steps_refusal, access_refusal, refusal};

use filter::ast::{ArithOp, ByteAccess, CmpRhs, LinkType, Primitive, Proto};
use filter::record::step_at;
use refusals::Reason;

fn unless_ether(link: LinkType, reason: Reason) -> Result<(), Reason>
    ensures { earned result ≡ unless_ether link (number_of reason) }
{
    match link.ether_proto_offset() {
        Some(_) => Ok(()),
        None => Err(reason),
    }
}

fn unless_macs(link: LinkType, reason: Reason) -> Result<(), Reason>
    ensures { earned result ≡ unless_macs link (number_of reason) }
{
    if link.has_macs() { Ok(()) } else { Err(reason) }
}

fn ether_refusal(link: LinkType, et: u16) -> Result<(), Reason>
    ensures { earned result ≡ ether_refusal link et }
{
    if et == 0x0800 {
        Ok(())
    } else {
        unless_ether(link, Reason::NoEthertype)
    }
}

fn proto_refusal(link: LinkType, proto: Proto) -> Result<(), Reason>
    ensures { earned result ≡ proto_refusal link proto }
{
    match proto {
        Proto::Ip6 | Proto::Icmp6 | Proto::Ip6Proto(_) => ether_refusal(link, 0x86dd),
        Proto::Arp => ether_refusal(link, 0x0806),
        Proto::Rarp => ether_refusal(link, 0x8035),
        _ => Ok(()),
    }
}

fn l4_refusal(proto: Proto) -> Result<(), Reason>
    ensures { earned result ≡ l4_refusal proto }
{
    match proto {
        Proto::Tcp | Proto::Udp | Proto::Sctp => Ok(()),
        _ => Err(Reason::NoPorts),
    }
}

fn port_refusal(proto: Option<Proto>) -> Result<(), Reason>
    ensures { earned result ≡ port_refusal proto }
{
    match proto {
        Some(p) => l4_refusal(p),
        None => Ok(()),
    }
}

fn op_refusal(op: ArithOp, operand: u32) -> Result<(), Reason>
    ensures { earned result ≡ op_refusal op operand }
{
    match op {
        ArithOp::Div if operand == 0 => Err(Reason::DivisionByZero),
        ArithOp::Mod => Err(Reason::Modulo),
        _ => Ok(()),
    }
}

// `steps` and `from` stay two: the part is all primitives', `from` counts on over them, and a struct would be built anew for each.
fn step_refusal(steps: &[u8], from: u32, k: u16) -> Result<(), Reason>
    ensures { earned result ≡ step_refusal steps.now (from + k) }
{
    let s = step_at(steps, from, k);
    op_refusal(s.op, s.operand)
}

fn steps_refusal(steps: &[u8], from: u32, n: u16) -> Result<(), Reason>
    ensures { earned result ≡ steps_refusal steps.now n from }
{
    for k in 0..n {
        step_refusal(steps, from, k)?;
    }
    Ok(())
}

fn access_refusal(steps: &[u8], from: u32, a: ByteAccess) -> Result<(), Reason>
    ensures { earned result ≡ access_refusal steps.now from a }
{
    match a.rhs {
        CmpRhs::Const(_) => steps_refusal(steps, from, a.steps),
        CmpRhs::Load(_) => Err(Reason::ComparedWithLoad),
    }
}

// The refusal that the primitive earns, if it earns one; its steps start at step `from`.
pub fn refusal_of(link: LinkType, steps: &[u8], from: u32, prim: Primitive) -> Result<(), Reason>
    ensures { earned result ≡ refusal link steps.now from prim }
{
    match prim {
        Primitive::Host { .. } | Primitive::Net { .. } => Ok(()),
        Primitive::Host6 { .. } | Primitive::Net6 { .. } => ether_refusal(link, 0x86dd),
        Primitive::Port { proto, .. } | Primitive::PortRange { proto, .. } => port_refusal(proto),
        Primitive::Proto(p) => proto_refusal(link, p),
        Primitive::EtherHost { .. } => unless_macs(link, Reason::NoEtherHost),
        Primitive::EtherProto(et) => ether_refusal(link, et),
        Primitive::EtherMulticast => unless_macs(link, Reason::NoEtherMulticast),
        Primitive::IpBroadcast | Primitive::IpMulticast => Ok(()),
        Primitive::Ip6Multicast => ether_refusal(link, 0x86dd),
        Primitive::Vlan { .. } => ether_refusal(link, 0x8100),
        Primitive::Mpls { .. } => unless_ether(link, Reason::NoMpls),
        Primitive::PppoeDiscovery => ether_refusal(link, 0x8863),
        Primitive::PppoeSession { .. } => ether_refusal(link, 0x8864),
        Primitive::IpProtoChain(_) | Primitive::Len { .. } => Ok(()),
        Primitive::Ip6ProtoChain(_) => ether_refusal(link, 0x86dd),
        Primitive::Inbound | Primitive::Outbound => Err(Reason::NoDirection),
        Primitive::ByteAccess(a) => access_refusal(steps, from, a),
    }
}
