// Ports: the transport header's place in R6, then the numbers there.
ghost use Rattle.std.specs.Prelude.{◌≡◌, suc};
ghost use Rattle.patches.specs.Code.{emission, block};
ghost use Rattle.pieces.specs.Fragments.{Fits, past};
ghost use Rattle.codegen.specs.Primitives.{l4_number, emit_l4_proto_check, prereqs_v6, prereqs_v4, prereqs_at, emit_port_prereqs};
ghost use Rattle.codegen.specs.Primitives.{check_port, check_ports, emit_port};

use ebpf::insn::{Insn, R2, R6};
use filter::ast::{AccessSize, Dir, LinkType, Proto};
use patches::Codegen;
use pieces::ether::net_plus;
use pieces::guarded::{check, emit_load, push_guard};
use pieces::load::{jeq, jne, push_load};
use pieces::steps::emit_transport;

// The source's port and the destination's, behind IPv6's header and behind IPv4's: all four bytes must be there, even for one port.
const PORTS_V6: u32 = 4;

const PORTS_V4: u32 = 4;

// The number of a protocol that has ports; the others are refused before. `mode` and `link` are what its definition stands under.
fn l4_number(mode: u8, link: LinkType, proto: Proto) -> u32
    ensures { result ≡ l4_number mode link proto }
{
    match proto {
        Proto::Tcp => 6,
        Proto::Udp => 17,
        Proto::Sctp => 132,
        Proto::Ip
        | Proto::Ip6
        | Proto::Arp
        | Proto::Rarp
        | Proto::Icmp
        | Proto::Icmp6
        | Proto::Igmp
        | Proto::Num(_)
        | Proto::Ip6Proto(_) => 0,
    }
}

// `emit_l4_proto_check`: one protocol, or TCP or UDP.
fn emit_l4_proto_check(code: &mut Codegen, off: u32, proto: Option<Proto>)
    requires { Fits (emit_l4_proto_check code.old.mode code.old.link off proto) code.old.patches }
    ensures { emission code.new ≡ block (emit_l4_proto_check code.old.mode code.old.link off proto) (emission code.old) }
{
    match proto {
        None => {
            emit_load(code, AccessSize::Byte, off);
            code.push_jump(jeq(code.mode, 6), 1);
            code.push_failure(jne(code.mode, 17));
        }
        Some(p) => check(
            code,
            AccessSize::Byte,
            off,
            l4_number(code.mode, code.link, p),
        ),
    }
}

// The two blocks stay two functions, and so do their lengths below: one header has 40 bytes, the other says how many it has.

// IPv6's block: its header has 40 bytes.
fn prereqs_v6(code: &mut Codegen, proto: Option<Proto>)
    requires { Fits (prereqs_v6 code.old.mode code.old.link proto) code.old.patches }
    ensures { emission code.new ≡ block (prereqs_v6 code.old.mode code.old.link proto) (emission code.old) }
{
    emit_l4_proto_check(code, net_plus(code.link, 6), proto);
    code.push(Insn::mov64_reg(R6, R2));
    code.push(Insn::add64_imm(R6, net_plus(code.link, 40)));
    push_guard(code, R6, PORTS_V6);
}

// IPv4's block: its header's length is read.
fn prereqs_v4(code: &mut Codegen, proto: Option<Proto>)
    requires { Fits (prereqs_v4 code.old.mode code.old.link proto) code.old.patches }
    ensures { emission code.new ≡ block (prereqs_v4 code.old.mode code.old.link proto) (emission code.old) }
{
    emit_l4_proto_check(code, net_plus(code.link, 9), proto);
    emit_transport(code, code.link.net_offset());
    push_guard(code, R6, PORTS_V4);
}

// How far IPv4's block is from the jump to it: TCP or UDP takes one instruction more.
#[tactic(auto, unfolding(pieces::specs::Fragments::past, pieces::specs::Fragments::guard, pieces::specs::Fragments::load, pieces::specs::Fragments::emit_load, pieces::specs::Fragments::fails, pieces::specs::Fragments::skips, pieces::specs::Fragments::check, crate::specs::Primitives::emit_l4_proto_check, crate::specs::Primitives::prereqs_v6))]
fn past_v6(mode: u8, link: LinkType, proto: Option<Proto>) -> u16
    ensures { result ≡ suc (past (prereqs_v6 mode link proto) 1) }
{
    if let Some(_) = proto { 12 } else { 13 }
}

// How long IPv4's block is.
#[tactic(auto, unfolding(pieces::specs::Fragments::past, pieces::specs::Fragments::guard, pieces::specs::Fragments::load, pieces::specs::Fragments::emit_load, pieces::specs::Fragments::transport, pieces::specs::Fragments::fails, pieces::specs::Fragments::skips, pieces::specs::Fragments::check, crate::specs::Primitives::emit_l4_proto_check, crate::specs::Primitives::prereqs_v4))]
fn past_v4(mode: u8, link: LinkType, proto: Option<Proto>) -> u16
    ensures { result ≡ past (prereqs_v4 mode link proto) 0 }
{
    if let Some(_) = proto { 17 } else { 18 }
}

// IPv6's block and IPv4's, of which the ethertype at off picks one.
fn prereqs_at(code: &mut Codegen, off: u32, proto: Option<Proto>)
    requires { Fits (prereqs_at code.old.mode code.old.link (Some off) proto) code.old.patches }
    ensures { emission code.new ≡ block (prereqs_at code.old.mode code.old.link (Some off) proto) (emission code.old) }
{
    emit_load(code, AccessSize::Half, off);
    code.push_jump(jeq(code.mode, 0x0800), past_v6(code.mode, code.link, proto));
    code.push_failure(jne(code.mode, 0x86dd));
    prereqs_v6(code, proto);
    code.push_jump(Insn::ja(0), past_v4(code.mode, code.link, proto));
    prereqs_v4(code, proto);
}

// `emit_port_prereqs`.
pub(crate) fn emit_port_prereqs(code: &mut Codegen, proto: Option<Proto>)
    requires { Fits (emit_port_prereqs code.old.mode code.old.link proto) code.old.patches }
    ensures { emission code.new ≡ block (emit_port_prereqs code.old.mode code.old.link proto) (emission code.old) }
{
    match code.link.ether_proto_offset() {
        Some(off) => prereqs_at(code, off, proto),
        None => prereqs_v4(code, proto),
    }
}

// The port at off is this one.
fn check_port(code: &mut Codegen, off: u32, port: u32)
    requires { Fits (check_port code.old.mode code.old.link off port) code.old.patches }
    ensures { emission code.new ≡ block (check_port code.old.mode code.old.link off port) (emission code.old) }
{
    push_load(code, AccessSize::Half, R6, off);
    code.push_failure(jne(code.mode, port));
}

// The ports: the source's is at 0, the destination's at 2. The switch on the direction stays, as `check_addr4`'s does.
fn check_ports(code: &mut Codegen, port: u32, dir: Dir)
    requires { Fits (check_ports code.old.mode code.old.link port dir) code.old.patches }
    ensures { emission code.new ≡ block (check_ports code.old.mode code.old.link port dir) (emission code.old) }
{
    match dir {
        Dir::SrcOrDst => {
            push_load(code, AccessSize::Half, R6, 0);
            code.push_success(jeq(code.mode, port));
            check_port(code, 2, port);
        }
        Dir::Src => check_port(code, 0, port),
        Dir::Dst => check_port(code, 2, port),
        Dir::SrcAndDst => {
            check_port(code, 0, port);
            check_port(code, 2, port);
        }
    }
}

// `emit_port`.
pub(crate) fn emit_port(code: &mut Codegen, port: u16, dir: Dir, proto: Option<Proto>)
    requires { Fits (emit_port code.old.mode code.old.link port dir proto) code.old.patches }
    ensures { emission code.new ≡ block (emit_port code.old.mode code.old.link port dir proto) (emission code.old) }
{
    emit_port_prereqs(code, proto);
    check_ports(code, port as u32, dir);
}
