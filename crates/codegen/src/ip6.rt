// IPv6 hosts and nets.
ghost use Rattle.std.specs.Prelude.{◌≡◌, ℕ, ◌+◌, ◌*◌, ◌^◌, ◌<◌, ◌≤◌, length};
ghost use Rattle.patches.specs.Code.{emission, block};
ghost use Rattle.filter.specs.Ast.{net_offset};
ghost use Rattle.checks.specs.Length.{clip};
ghost use Rattle.pieces.specs.Fragments.{Fits, Leads, lead, sides};
ghost use Rattle.codegen.specs.Primitives.{first_side, past_sides, side_end, over, check_segment, check_net6, emit_net6};

use ebpf::insn::{Insn, R4};
use filter::ast::{AccessSize, Dir, Ipv6Addr, LinkType};
use filter::prefix::prefix_mask;
use patches::Codegen;
use pieces::ether::{emit_ethertype, net_plus};
use pieces::guarded::{emit_load_to, push_failing};
use pieces::load::jne;

// `check_net6`, of one half.
fn check_segment(code: &mut Codegen, addr: Ipv6Addr, prefix: u8, at: u32, i: u32, end: u32)
    requires leads { Leads end (check_segment code.old.mode code.old.link addr prefix at i) code.old.patches }
    requires i_bound { (i < 8) × (16 * i < prefix) × (at ≤ 65535) }
    ensures { emission code.new ≡ block (lead end code.old.patches.pos (check_segment code.old.mode code.old.link addr prefix at i)) (emission code.old) }
{
    let prefix_len = prefix as u32;
    let start_bit = 16 * i;
    let seg = u32::from(addr.segment(i));
    emit_load_to(code, AccessSize::Half, at + 2 * i, end);
    if start_bit + 16 <= prefix_len {
        push_failing(code, jne(code.mode, seg), end);
    } else {
        let mask = prefix_mask(prefix_len - start_bit);
        code.push(Insn::and32_imm(R4, mask));
        push_failing(code, jne(code.mode, seg & mask), end);
    }
}

// A prefix above 128 acts as 128.
#[tactic(auto, unfolding(checks::specs::Length::clip))]
fn clipped(prefix: u8) -> u32
    ensures { (result ≡ clip prefix) × (result ≤ 128) }
{
    prefix.min(128) as u32
}

// How many instructions the check of one address takes.
fn side_length(prefix: u8) -> u32
    ensures by_index { (mode : ℕ) (link : LinkType) (addr : Ipv6Addr) (at : ℕ) → length (check_net6 mode link addr prefix at 8 0) ≡ result }
    ensures upper_bound { result ≤ 49 }
{
    let bits = clipped(prefix);
    let halves = 6 * ((bits + 15) / 16);
    if bits % 16 == 0 { halves } else { halves + 1 }
}

// The chosen addresses, of which the source is 0 and the destination 1: the first one.
#[tactic(auto, unfolding(crate::specs::Primitives::first_side))]
fn first_side(dir: Dir) -> u8
    ensures { result ≡ first_side dir }
{
    match dir {
        Dir::Dst => 1,
        Dir::SrcOrDst | Dir::Src | Dir::SrcAndDst => 0,
    }
}

// The number behind the last chosen address.
#[tactic(auto, unfolding(crate::specs::Primitives::past_sides))]
fn past_sides(dir: Dir) -> u8
    ensures { (result ≡ past_sides dir) × (result ≤ 2) }
{
    match dir {
        Dir::Src => 1,
        Dir::SrcOrDst | Dir::Dst | Dir::SrcAndDst => 2,
    }
}

// Where the failures of a side lead: the source's behind its JA if the destination may match instead.
#[tactic(auto, unfolding(crate::specs::Primitives::side_end))]
fn side_end(dir: Dir, side: u8, p: u32, n: u32) -> u32
    requires { side_end dir side p n < 2 ^ 32 }
    ensures { result ≡ side_end dir side p n }
{
    match dir {
        Dir::SrcOrDst if side == 0 => p + n + 1,
        Dir::SrcOrDst | Dir::Src | Dir::Dst | Dir::SrcAndDst => 0,
    }
}

// The JA behind a side whose failures lead past it.
fn push_over(code: &mut Codegen, end: u32)
    requires { Fits (over end) code.old.patches }
    ensures { emission code.new ≡ block (over end) (emission code.old) }
{
    if end != 0 {
        code.push_success(Insn::ja(0));
    }
}

// The checks of the chosen addresses, the source first.
fn check_sides(code: &mut Codegen, addr: Ipv6Addr, prefix: u8, dir: Dir)
    requires { Fits (sides dir (check_net6 code.old.mode code.old.link addr prefix (net_offset code.old.link + 8) 8 0) (check_net6 code.old.mode code.old.link addr prefix (net_offset code.old.link + 24) 8 0)) code.old.patches }
    ensures { emission code.new ≡ block (sides dir (check_net6 code.old.mode code.old.link addr prefix (net_offset code.old.link + 8) 8 0) (check_net6 code.old.mode code.old.link addr prefix (net_offset code.old.link + 24) 8 0)) (emission code.old) }
{
    let n = side_length(prefix);
    for side in first_side(dir)..past_sides(dir) {
        let at = net_plus(code.link, 8 + 16 * side);
        let end = side_end(dir, side, code.patches.pos, n);
        for i in 0..8 {
            if prefix as u32 <= 16 * i {
                break;
            }
            check_segment(code, addr, prefix, at, i, end);
        }
        push_over(code, end);
    }
}

// `emit_net6`; `emit_host6` is the same with the whole address.
pub(crate) fn emit_net6(code: &mut Codegen, addr: Ipv6Addr, prefix: u8, dir: Dir)
    requires { Fits (emit_net6 code.old.mode code.old.link addr prefix dir) code.old.patches }
    ensures { emission code.new ≡ block (emit_net6 code.old.mode code.old.link addr prefix dir) (emission code.old) }
{
    emit_ethertype(code, 0x86dd);
    check_sides(code, addr, prefix, dir);
}
