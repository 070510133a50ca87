// Tests of the IPv4 and IPv6 headers: protocols, hosts and nets.
#![tactic(auto, unfolding(crate::specs::Meaning::ip, crate::specs::Meaning::ip6, crate::specs::Meaning::ip4_proto, crate::specs::Meaning::ip6_proto, crate::specs::Meaning::dual_proto, crate::specs::Meaning::protocol, crate::specs::Meaning::address4, crate::specs::Meaning::host4, crate::specs::Meaning::net4, crate::specs::Meaning::covered, crate::specs::Meaning::half_mask, crate::specs::Meaning::net6))]

ghost use Rattle.std.specs.Prelude.{ℕ, Bool, ◌≡◌, ◌+◌, ◌*◌, ◌/◌, ◌^◌, ◌<◌, ◌≤◌, ◌&&◌, bit_and, nat_eq};
ghost use Rattle.filter.specs.Ast.{net_offset, segment_of};
ghost use Rattle.meaning.specs.Frame.{passes, Answers};
ghost use Rattle.meaning.specs.Meaning.{ethertype, ip, ip6, ip4_proto, ip6_proto, dual_proto, protocol, address4, host4, net4, covered, half_mask, halves, net6};

use crate::frame::{half_under, passes, word_is, word_under};
use crate::packet::Packet;
use crate::side::directed;
use filter::ast::{Dir, IpNet, Ipv6Addr, Ipv6Net, Proto};
use filter::prefix::prefix_mask;

impl Packet<'_> {
    // Whether the frame has the ethertype, and the n bytes `at` bytes into the network header pass a test.
    pub(crate) fn header<F: Fn(u64) -> bool>(self, x: u16, n: u8, at: u32, test: F) -> bool
        requires long { n ≤ 8 }
        requires test { F.IsAlwaysCallable test }
        ensures { (asked : ℕ → Bool) → Answers (F.post test) asked → result ≡ (ethertype self.entry.link self.entry.frame.now x && passes self.entry.frame.now n (net_offset self.entry.link + at) asked) }
    {
        self.ethertype(x) && passes(self.frame, n, self.link.net_offset(), at, test)
    }

    // Each header and width keeps its name, for docs/PROMISES.md has a theorem of each.
    pub fn ip_byte(self, at: u32, k: u8) -> bool
        ensures { result ≡ ip self.entry.link self.entry.frame.now 1 at (nat_eq k) }
    {
        self.header(0x0800, 1, at, |b| k as u64 == b)
    }

    pub fn ip6_byte(self, at: u32, k: u8) -> bool
        ensures { result ≡ ip6 self.entry.link self.entry.frame.now 1 at (nat_eq k) }
    {
        self.header(0x86dd, 1, at, |b| k as u64 == b)
    }

    pub fn ip_word(self, at: u32, k: u32) -> bool
        ensures { result ≡ ip self.entry.link self.entry.frame.now 4 at (nat_eq k) }
    {
        self.header(0x0800, 4, at, |w| k as u64 == w)
    }

    // The top four bits of the word.
    pub fn ip_class(self, at: u32, k: u32) -> bool
        ensures { result ≡ ip self.entry.link self.entry.frame.now 4 at (λ w. nat_eq (w / 2 ^ 28) k) }
    {
        self.header(0x0800, 4, at, |w| w / 0x1000_0000 == k as u64)
    }

    pub fn ip4_proto(self, p: u8) -> bool
        ensures { result ≡ ip4_proto self.entry.link self.entry.frame.now p }
    {
        self.ip_byte(9, p)
    }

    pub fn ip6_proto(self, p: u8) -> bool
        ensures { result ≡ ip6_proto self.entry.link self.entry.frame.now p }
    {
        self.ip6_byte(6, p)
    }

    pub fn dual_proto(self, p: u8) -> bool
        ensures { result ≡ dual_proto self.entry.link self.entry.frame.now p }
    {
        self.ip4_proto(p) || self.ip6_proto(p)
    }

    pub fn protocol(self, proto: Proto) -> bool
        ensures { result ≡ protocol self.entry.link self.entry.frame.now proto }
    {
        match proto {
            Proto::Ip => self.ethertype(0x0800),
            Proto::Ip6 => self.ethertype(0x86dd),
            Proto::Arp => self.ethertype(0x0806),
            Proto::Rarp => self.ethertype(0x8035),
            Proto::Tcp => self.dual_proto(6),
            Proto::Udp => self.dual_proto(17),
            Proto::Icmp => self.ip4_proto(1),
            Proto::Icmp6 => self.ip6_proto(58),
            Proto::Igmp => self.ip4_proto(2),
            Proto::Sctp => self.dual_proto(132),
            Proto::Num(n) => self.ip4_proto(n),
            Proto::Ip6Proto(n) => self.ip6_proto(n),
        }
    }

    pub fn host4(self, addr: u32, dir: Dir) -> bool
        ensures { result ≡ host4 self.entry.link self.entry.frame.now addr dir }
    {
        let word = |at| word_is(self.frame, self.link.net_offset(), at, addr);
        self.ethertype(0x0800) && directed(dir, word(12), word(16))
    }

    // The address `at` bytes into the header, under the net's mask.
    pub fn address4(self, net: IpNet, at: u32) -> bool
        ensures { result ≡ address4 self.entry.link self.entry.frame.now net.mask net.addr at }
    {
        word_under(self.frame, self.link.net_offset(), at, net.mask, net.addr)
    }

    pub fn net4(self, net: IpNet, dir: Dir) -> bool
        ensures { result ≡ net4 self.entry.link self.entry.frame.now net dir }
    {
        self.ethertype(0x0800) && directed(dir, self.address4(net, 12), self.address4(net, 16))
    }

    // The address that stands at `at`, as far as the net's prefix goes.
    pub fn halves(self, net: Ipv6Net, at: u32) -> bool
        ensures { result ≡ halves self.entry.link self.entry.frame.now net.addr net.prefix_len at 8 0 }
    {
        for i in 0..8 {
            if net.prefix_len as u32 <= 16 * i {
                break; // The half starts at or past the prefix: no byte of it is read.
            }
            if !half_same(self.frame, net, at, i) {
                return false;
            }
        }
        true
    }

    pub fn net6(self, net: Ipv6Net, dir: Dir) -> bool
        ensures { result ≡ net6 self.entry.link self.entry.frame.now net.addr net.prefix_len dir }
    {
        let start = self.link.net_offset();
        self.ethertype(0x86dd)
            && directed(
                dir,
                self.halves(net, start + 8),
                self.halves(net, start + 24),
            )
    }
}

// How many bits of half i lie under the prefix.
fn covered(prefix: u8, i: u32) -> u32
    requires { i < 8 }
    ensures { (result ≡ covered prefix i) × (result ≤ 16) }
{
    (prefix as u32).saturating_sub(16 * i).min(16)
}

fn half_mask(prefix: u8, i: u32) -> u16
    requires { i < 8 }
    ensures { result ≡ half_mask prefix i }
{
    prefix_mask(covered(prefix, i)) as u16
}

// Half i of the address that stands at `at`, under its part of the prefix.
fn half_same(frame: &[u8], net: Ipv6Net, at: u32, i: u32) -> bool
    requires { i < 8 }
    ensures { result ≡ passes frame.now 2 (at + 2 * i) (λ h. nat_eq (bit_and h (half_mask net.prefix_len i)) (bit_and (segment_of net.addr i) (half_mask net.prefix_len i))) }
{
    half_under(
        frame,
        at,
        2 * i,
        half_mask(net.prefix_len, i),
        net.addr.segment(i),
    )
}
