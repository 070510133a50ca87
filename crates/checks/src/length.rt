// How many instructions the Rust emits: for a primitive, and for the whole program.
#![tactic(auto, unfolding(crate::specs::Length::sides, crate::specs::Length::clip, crate::specs::Length::net6_side, crate::specs::Length::proto_size, crate::specs::Length::id_size, crate::specs::Length::cmp_size, crate::specs::Length::swap_size, crate::specs::Length::layer_size, crate::specs::Length::access_size, crate::specs::Length::count_of, crate::specs::Length::size_of, crate::specs::Length::program_length))]

ghost use Rattle.std.specs.Prelude.{◌≡◌, ◌+◌, ◌*◌, ◌≤◌, take, get_or};
ghost use Rattle.filter.specs.Record.{decode_at};
ghost use Rattle.tree.specs.Tokens.{count, is_jump};
ghost use Rattle.checks.specs.Check.{steps_before};
ghost use Rattle.checks.specs.Length.{ethertype_size, sides, clip, net6_side, l4_size, prereq_size, dual_size, proto_size, id_size, label_size, cmp_size, swap_size, layer_size, access_size, count_of, size_of, sizes_of, program_length};

use crate::check::takes_steps;
use crate::refusal::refusal_of;
use filter::ast::{AccessSize, ByteAccess, CmpOp, Dir, Ipv6Net, Layer, LinkType, Primitive, Proto};
use filter::record::primitive_at;
use filter::sheet::{Counts, Sections};

fn ethertype_size(link: LinkType) -> u32
    ensures { (result ≡ ethertype_size link) × (result ≤ 6) }
{
    match link.ether_proto_offset() {
        Some(_) => 6,
        None => 0,
    }
}

fn sides_of(dir: Dir, n: u8, between: u8) -> u32
    ensures { (result ≡ sides dir n between) × (result ≤ 765) }
{
    let m = u32::from(n);
    match dir {
        Dir::SrcOrDst => 2 * m + u32::from(between),
        Dir::Src | Dir::Dst => m,
        Dir::SrcAndDst => 2 * m,
    }
}

fn clipped(prefix: u8) -> u8
    ensures { (result ≡ clip prefix) × (result ≤ 128) }
{
    prefix.min(128)
}

fn net6_side(net: Ipv6Net) -> u8
    ensures { result ≡ net6_side net }
{
    let p = clipped(net.prefix_len);
    let whole = 6 * ((p + 15) / 16);
    if p % 16 == 0 { whole } else { whole + 1 }
}

fn l4_size(proto: Option<Proto>) -> u32
    ensures { (result ≡ l4_size proto) × (result ≤ 6) }
{
    match proto {
        None => 6,
        Some(_) => 5,
    }
}

fn prereq_size(link: LinkType, proto: Option<Proto>) -> u32
    ensures { (result ≡ prereq_size link proto) × (result ≤ 37) }
{
    let n = l4_size(proto);
    match link.ether_proto_offset() {
        Some(_) => 2 * n + 25,
        None => n + 12,
    }
}

fn dual_size(link: LinkType) -> u32
    ensures { result ≡ dual_size link }
{
    match link.ether_proto_offset() {
        Some(_) => 18,
        None => 5,
    }
}

fn proto_size(link: LinkType, proto: Proto) -> u32
    ensures { result ≡ proto_size link proto }
{
    let eth = ethertype_size(link);
    match proto {
        Proto::Ip | Proto::Ip6 | Proto::Arp | Proto::Rarp => eth,
        Proto::Tcp | Proto::Udp | Proto::Sctp => dual_size(link),
        _ => eth + 5,
    }
}

fn id_size(id: Option<u16>, n: u8) -> u32
    ensures { (result ≡ id_size id n) × (result ≤ 255) }
{
    match id {
        None => 0,
        Some(_) => u32::from(n),
    }
}

fn label_size(label: Option<u32>) -> u32
    ensures { (result ≡ label_size label) × (result ≤ 7) }
{
    match label {
        None => 0,
        Some(_) => 7,
    }
}

fn cmp_size(op: CmpOp) -> u32
    ensures { (result ≡ cmp_size op) × (result ≤ 2) }
{
    match op {
        CmpOp::BitAnd => 2,
        _ => 1,
    }
}

fn swap_size(size: AccessSize) -> u32
    ensures { (result ≡ swap_size size) × (result ≤ 2) }
{
    match size {
        AccessSize::Byte => 1,
        AccessSize::Half | AccessSize::Word => 2,
    }
}

fn layer_size(layer: Layer) -> u32
    ensures { (result ≡ layer_size layer) × (result ≤ 12) }
{
    match layer {
        Layer::Raw | Layer::Net => 3,
        Layer::Trans => 12,
    }
}

fn access_size(a: ByteAccess) -> u32
    ensures { result ≡ access_size a }
{
    layer_size(a.layer) + swap_size(a.size) + u32::from(a.steps) + cmp_size(a.op)
}

// The Rust's count of instructions for a primitive that it does not refuse.
pub fn count_of(link: LinkType, prim: Primitive) -> u32
    ensures { result ≡ count_of link prim }
{
    let eth = ethertype_size(link);
    match prim {
        Primitive::Host { dir, .. } => eth + sides_of(dir, 6, 0),
        Primitive::Host6 { dir, .. } => eth + sides_of(dir, 48, 1),
        Primitive::Port { dir, proto, .. } => prereq_size(link, proto) + sides_of(dir, 3, 0),
        Primitive::PortRange { dir, proto, .. } => prereq_size(link, proto) + sides_of(dir, 4, 1),
        Primitive::Net { dir, .. } => eth + sides_of(dir, 7, 0),
        Primitive::Net6 { net, dir } => eth + sides_of(dir, net6_side(net), 1),
        Primitive::Proto(p) => proto_size(link, p),
        Primitive::EtherHost { dir, .. } => sides_of(dir, 12, 1),
        Primitive::EtherProto(_) | Primitive::PppoeDiscovery => eth,
        Primitive::EtherMulticast => 6,
        Primitive::IpBroadcast => eth + 6,
        Primitive::IpMulticast => eth + 7,
        Primitive::Ip6Multicast => eth + 5,
        Primitive::Vlan { id } => eth + id_size(id, 7),
        Primitive::Mpls { label } => 7 + label_size(label),
        Primitive::PppoeSession { session_id } => eth + id_size(session_id, 6),
        Primitive::IpProtoChain(_) | Primitive::Ip6ProtoChain(_) => eth + 5,
        Primitive::Len { op, .. } => 2 + cmp_size(op),
        Primitive::Inbound | Primitive::Outbound => 0,
        Primitive::ByteAccess(a) => access_size(a),
    }
}

// A primitive's share of L; its steps start at step `from`. `steps` and `from` stay two: the part is all primitives', `from` counts on over them, and a struct would be built anew for each.
pub fn size_of(link: LinkType, steps: &[u8], from: u32, prim: Primitive) -> u32
    ensures { result ≡ size_of link steps.now from prim }
{
    match refusal_of(link, steps, from, prim) {
        Ok(()) => count_of(link, prim),
        Err(_) => 0,
    }
}

// What the first n primitives add to L. The part and n stay two: the promise holds for any n, also where the part has fewer or more.
// Not inlined: `measure` would hold on its stack, while the sheet is checked, what this needs afterwards.
#[inline(never)]
pub fn sizes_of(link: LinkType, steps: &[u8], prims: &[u8], n: u16) -> u64
    ensures { (result ≡ sizes_of link steps.now prims.now n) × (result ≤ 4294967296 * n) }
{
    let mut sum = 0;
    let mut from = 0;
    for i in 0..u32::from(n) {
        let prim = primitive_at(prims, i);
        sum += u64::from(size_of(link, steps, from, prim));
        from += u32::from(takes_steps(prims, i));
    }
    sum
}

// How many of the first n tokens are Or or Not.
pub fn jumps_of(tokens: &[u8], n: u16) -> u64
    ensures { (result ≡ count is_jump (take n tokens.now)) × (result ≤ n) }
{
    let front = &tokens[..usize::from(n).min(tokens.len())];
    front.iter().filter(|t| matches!(**t, 2 | 3)).count() as u64
}

// L.
pub fn program_length(link: LinkType, parts: Sections, n: Counts) -> u64
    ensures { result ≡ program_length link parts.entry.steps.now parts.entry.prims.now parts.entry.tokens.now n.prims n.tokens }
{
    6 + jumps_of(parts.tokens, n.tokens) + sizes_of(link, parts.steps, parts.prims, n.prims)
}
