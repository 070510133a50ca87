// Tests of ports. All four port bytes must be there, even for one port.
#![tactic(auto, unfolding(crate::specs::Meaning::given, crate::specs::Meaning::l4, crate::specs::Meaning::ip, crate::specs::Meaning::ip6, crate::specs::Meaning::start4, crate::specs::Meaning::start6, crate::specs::Meaning::ports_at, crate::specs::Meaning::ports))]

ghost use Rattle.std.specs.Prelude.{◌≡◌, ◌+◌, ◌≤◌, ◌&&◌, nat_le};
ghost use Rattle.filter.specs.Ast.{net_offset};
ghost use Rattle.meaning.specs.Meaning.{given, l4, start4, start6, ports_at, ports};

use crate::frame::{byte_at, half_at, has};
use crate::packet::Packet;
use crate::side::directed;
use filter::ast::{Dir, Proto};

fn given(proto: Proto, p: u64) -> bool
    ensures { result ≡ given proto p }
{
    match proto {
        Proto::Tcp => 6 == p,
        Proto::Udp => 17 == p,
        Proto::Sctp => 132 == p,
        _ => false,
    }
}

fn l4(proto: Option<Proto>, p: u64) -> bool
    ensures { result ≡ l4 proto p }
{
    match proto {
        None => 6 == p || 17 == p,
        Some(x) => given(x, p),
    }
}

impl Packet<'_> {
    fn ports_at(self, start: u32, lo: u16, hi: u16, dir: Dir) -> bool
        ensures { result ≡ ports_at self.entry.link self.entry.frame.now start dir (λ x. nat_le lo x && nat_le x hi) }
    {
        let within = |past| {
            let x = half_at(self.frame, start, past);
            lo <= x && x <= hi
        };
        has(self.frame, 4, start, 0) && directed(dir, within(0), within(2))
    }

    // Where the transport header starts after an IPv4 header, whose length is in its first byte.
    pub fn start4(self) -> u32
        ensures { (result ≡ start4 self.entry.link self.entry.frame.now) × (result ≤ 76) }
    {
        let net = self.link.net_offset();
        net + 4 * (byte_at(self.frame, net, 0) % 16) as u32
    }

    fn start6(self) -> u32
        ensures { result ≡ start6 self.entry.link self.entry.frame.now }
    {
        self.link.net_offset() + 40
    }

    // A port from lo to hi, both included.
    pub fn ports(self, lo: u16, hi: u16, dir: Dir, proto: Option<Proto>) -> bool
        ensures { result ≡ ports self.entry.link self.entry.frame.now proto dir (λ x. nat_le lo x && nat_le x hi) }
    {
        let asked = |p| l4(proto, p);
        self.header(0x0800, 1, 9, asked)
            && has(self.frame, 1, self.link.net_offset(), 0)
            && self.ports_at(self.start4(), lo, hi, dir)
            || self.header(0x86dd, 1, 6, asked) && self.ports_at(self.start6(), lo, hi, dir)
    }
}
