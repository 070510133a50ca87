// Tests of the link's header: ethertype, MAC addresses, and what stands behind a tag.
#![tactic(auto, unfolding(crate::specs::Meaning::ethertype, crate::specs::Meaning::tagged, crate::specs::Meaning::ether_host, crate::specs::Meaning::vlan, crate::specs::Meaning::mpls, crate::specs::Meaning::pppoe))]

ghost use Rattle.std.specs.Prelude.{ℕ, Bool, ◌≡◌, ◌≤◌, ◌||◌};
ghost use Rattle.meaning.specs.Frame.{Answers};
ghost use Rattle.meaning.specs.Meaning.{ethertype, tagged, ether_host, vlan, mpls, pppoe};

use crate::frame::{half_is, mac_is, passes};
use crate::packet::Packet;
use crate::side::directed;
use filter::ast::Dir;

impl Packet<'_> {
    pub fn ethertype(self, x: u16) -> bool
        ensures { result ≡ ethertype self.entry.link self.entry.frame.now x }
    {
        match self.link.ether_proto_offset() {
            Some(at) => half_is(self.frame, at, 0, x),
            None => x == 0x0800,
        }
    }

    pub fn ether_host(self, addr: u64, dir: Dir) -> bool
        ensures { result ≡ ether_host self.entry.link self.entry.frame.now addr dir }
    {
        let mac = |at| mac_is(self.frame, at, 0, addr);
        directed(dir, mac(6), mac(0))
    }

    // Whether the n bytes, so many bytes past the ethertype field, pass a test.
    fn tagged<F: Fn(u64) -> bool>(self, n: u8, past: u32, test: F) -> bool
        requires long { n ≤ 8 }
        requires test { F.IsAlwaysCallable test }
        ensures { (asked : ℕ → Bool) → Answers (F.post test) asked → result ≡ tagged self.entry.link self.entry.frame.now n past asked }
    {
        match self.link.ether_proto_offset() {
            Some(at) => passes(self.frame, n, at, past, test),
            None => false,
        }
    }

    // The tag's number is the low 12 bits of the half behind its ethertype.
    pub fn vlan(self, id: Option<u16>) -> bool
        ensures { result ≡ vlan self.entry.link self.entry.frame.now id }
    {
        match id {
            None => self.ethertype(0x8100),
            Some(n) => { self.ethertype(0x8100) && self.tagged(2, 2, |h| n as u64 == h % 4096) }
        }
    }

    // Unicast or multicast.
    fn is_mpls(self) -> bool
        ensures { result ≡ (ethertype self.entry.link self.entry.frame.now 0x8847 || ethertype self.entry.link self.entry.frame.now 0x8848) }
    {
        self.ethertype(0x8847) || self.ethertype(0x8848)
    }

    // The label is the top 20 bits of the word behind the ethertype.
    pub fn mpls(self, label: Option<u32>) -> bool
        ensures { result ≡ mpls self.entry.link self.entry.frame.now label }
    {
        match label {
            None => self.is_mpls(),
            Some(n) => { self.is_mpls() && self.tagged(4, 2, |w| n as u64 == w / 4096) }
        }
    }

    pub fn pppoe(self, id: Option<u16>) -> bool
        ensures { result ≡ pppoe self.entry.link self.entry.frame.now id }
    {
        match id {
            None => self.ethertype(0x8864),
            Some(n) => {
                self.ethertype(0x8864) && self.tagged(2, 4, |session| n as u64 == session)
            }
        }
    }
}
