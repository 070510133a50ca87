// IPv4 hosts and nets.
ghost use Rattle.std.specs.Prelude.{◌≡◌};
ghost use Rattle.patches.specs.Code.{emission, block};
ghost use Rattle.pieces.specs.Fragments.{Fits};
ghost use Rattle.codegen.specs.Primitives.{masked, check_word_at, check_addr4, emit_host4, emit_net};

use ebpf::insn::{Insn, R4};
use filter::ast::{AccessSize, Dir, IpNet};
use patches::Codegen;
use pieces::ether::{emit_ethertype, net_plus};
use pieces::guarded::emit_load;
use pieces::load::{jeq, jne};

// The word under a mask, if there is one.
fn push_mask(code: &mut Codegen, mask: Option<u32>)
    requires { Fits (masked mask) code.old.patches }
    ensures { emission code.new ≡ block (masked mask) (emission code.old) }
{
    if let Some(mask) = mask {
        code.push(Insn::and32_imm(R4, mask));
    }
}

// The word at off is k.
fn check_word_at(code: &mut Codegen, mask: Option<u32>, k: u32, off: u32)
    requires { Fits (check_word_at code.old.mode code.old.link (masked mask) k off) code.old.patches }
    ensures { emission code.new ≡ block (check_word_at code.old.mode code.old.link (masked mask) k off) (emission code.old) }
{
    emit_load(code, AccessSize::Word, off);
    push_mask(code, mask);
    code.push_failure(jne(code.mode, k));
}

// `check_addr4`; its switch on the direction stays: one function for the four would take what to write on a side, and where its failures lead, as closures that borrow `code`.
fn check_addr4(code: &mut Codegen, mask: Option<u32>, k: u32, src: u32, dst: u32, dir: Dir)
    requires { Fits (check_addr4 code.old.mode code.old.link (masked mask) k src dst dir) code.old.patches }
    ensures { emission code.new ≡ block (check_addr4 code.old.mode code.old.link (masked mask) k src dst dir) (emission code.old) }
{
    match dir {
        Dir::SrcOrDst => {
            emit_load(code, AccessSize::Word, src);
            push_mask(code, mask);
            code.push_success(jeq(code.mode, k));
            check_word_at(code, mask, k, dst);
        }
        Dir::Src => check_word_at(code, mask, k, src),
        Dir::Dst => check_word_at(code, mask, k, dst),
        Dir::SrcAndDst => {
            check_word_at(code, mask, k, src);
            check_word_at(code, mask, k, dst);
        }
    }
}

// `emit_host4`.
pub(crate) fn emit_host4(code: &mut Codegen, addr: u32, dir: Dir)
    requires { Fits (emit_host4 code.old.mode code.old.link addr dir) code.old.patches }
    ensures { emission code.new ≡ block (emit_host4 code.old.mode code.old.link addr dir) (emission code.old) }
{
    emit_ethertype(code, 0x0800);
    check_addr4(
        code,
        None,
        addr,
        net_plus(code.link, 12),
        net_plus(code.link, 16),
        dir,
    );
}

// `emit_net`.
pub(crate) fn emit_net(code: &mut Codegen, net: IpNet, dir: Dir)
    requires { Fits (emit_net code.old.mode code.old.link net dir) code.old.patches }
    ensures { emission code.new ≡ block (emit_net code.old.mode code.old.link net dir) (emission code.old) }
{
    emit_ethertype(code, 0x0800);
    check_addr4(
        code,
        Some(net.mask),
        net.addr & net.mask,
        net_plus(code.link, 12),
        net_plus(code.link, 16),
        dir,
    );
}
