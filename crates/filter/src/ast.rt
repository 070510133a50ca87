// The types of ast.rs by value; an address is whole numbers.
#![tactic(auto, unfolding(crate::specs::Ast::link_record, crate::specs::Ast::ether_proto_offset, crate::specs::Ast::net_offset, crate::specs::Ast::has_macs, crate::specs::Ast::link_of, crate::specs::Ast::dir_of, crate::specs::Ast::proto_of, crate::specs::Ast::maybe_proto_of, crate::specs::Ast::arith_of, crate::specs::Ast::cmp_of, crate::specs::Ast::layer_of, crate::specs::Ast::access_size_of, crate::specs::Ast::bytes_of, crate::specs::Ast::segment_of))]

ghost use Rattle.std.specs.Prelude.{◌≡◌};
ghost use Rattle.filter.specs.Ast.{dir_of, cmp_of, arith_of, layer_of, access_size_of, proto_of, maybe_proto_of, link_of, link_record, ether_proto_offset, net_offset, has_macs, bytes_of, segment_of};

// Which address or port is tested.
#[derive(Clone, Copy, PartialEq, Eq)]
pub enum Dir {
    SrcOrDst,
    Src,
    Dst,
    SrcAndDst,
}

#[derive(Clone, Copy, PartialEq, Eq)]
pub enum Proto {
    Ip,
    Ip6,
    Arp,
    Rarp,
    Tcp,
    Udp,
    Icmp,
    Icmp6,
    Igmp,
    Sctp,
    Num(u8),
    Ip6Proto(u8),
}

// The first eight bytes of the address, and the last eight.
#[derive(Clone, Copy, PartialEq, Eq)]
pub struct Ipv6Addr {
    pub hi: u64,
    pub lo: u64,
}

// Any mask, not only a prefix's.
#[derive(Clone, Copy, PartialEq, Eq)]
pub struct IpNet {
    pub addr: u32,
    pub mask: u32,
}

// A prefix above 128 acts as 128.
#[derive(Clone, Copy, PartialEq, Eq)]
pub struct Ipv6Net {
    pub addr: Ipv6Addr,
    pub prefix_len: u8,
}

#[derive(Clone, Copy, PartialEq, Eq)]
pub enum ArithOp {
    Add,
    Sub,
    Mul,
    Div,
    Mod,
    And,
    Or,
    Xor,
    Shl,
    Shr,
}

#[derive(Clone, Copy, PartialEq, Eq)]
pub enum CmpOp {
    Eq,
    Ne,
    Lt,
    Le,
    Gt,
    Ge,
    BitAnd,
}

#[derive(Clone, Copy, PartialEq, Eq)]
pub enum AccessSize {
    Byte,
    Half,
    Word,
}

#[derive(Clone, Copy, PartialEq, Eq)]
pub enum Layer {
    Raw,
    Net,
    Trans,
}

// The offset is a signed number's 32 bits.
#[derive(Clone, Copy, PartialEq, Eq)]
pub struct ByteLoad {
    pub layer: Layer,
    pub offset: u32,
    pub size: AccessSize,
}

#[derive(Clone, Copy, PartialEq, Eq)]
pub enum CmpRhs {
    Const(u32),
    Load(ByteLoad),
}

// An operation on the loaded value.
#[derive(Clone, Copy, PartialEq, Eq)]
pub struct Step {
    pub op: ArithOp,
    pub operand: u32,
}

// `steps` is how many steps it takes next from the steps section.
#[derive(Clone, Copy, PartialEq, Eq)]
pub struct ByteAccess {
    pub layer: Layer,
    pub offset: u32,
    pub size: AccessSize,
    pub steps: u16,
    pub op: CmpOp,
    pub rhs: CmpRhs,
}

// A leaf of the filter tree.
#[derive(Clone, Copy, PartialEq, Eq)]
pub enum Primitive {
    Host {
        addr: u32,
        dir: Dir,
    },
    Host6 {
        addr: Ipv6Addr,
        dir: Dir,
    },
    Port {
        port: u16,
        dir: Dir,
        proto: Option<Proto>,
    },
    PortRange {
        lo: u16,
        hi: u16,
        dir: Dir,
        proto: Option<Proto>,
    },
    Net {
        net: IpNet,
        dir: Dir,
    },
    Net6 {
        net: Ipv6Net,
        dir: Dir,
    },
    Proto(Proto),
    EtherHost {
        addr: u64,
        dir: Dir,
    },
    EtherProto(u16),
    EtherMulticast,
    IpBroadcast,
    IpMulticast,
    Ip6Multicast,
    Vlan {
        id: Option<u16>,
    },
    Mpls {
        label: Option<u32>,
    },
    PppoeDiscovery,
    PppoeSession {
        session_id: Option<u16>,
    },
    IpProtoChain(u8),
    Ip6ProtoChain(u8),
    Len {
        op: CmpOp,
        value: u32,
    },
    Inbound,
    Outbound,
    ByteAccess(ByteAccess),
}

#[derive(Clone, Copy, PartialEq, Eq)]
pub enum LinkType {
    Ethernet,
    RawIp,
    LinuxSll,
}

// What a link is to a filter: all that is asked of it stands here.
#[derive(Clone, Copy, PartialEq, Eq)]
pub struct Link {
    pub ethertype: Option<u32>,
    pub net: u32,
    pub macs: bool,
}

impl LinkType {
    fn record(self) -> Link
        ensures { result ≡ link_record self }
    {
        match self {
            LinkType::Ethernet => Link {
                ethertype: Some(12),
                net: 14,
                macs: true,
            },
            LinkType::RawIp => Link {
                ethertype: None,
                net: 0,
                macs: false,
            },
            LinkType::LinuxSll => Link {
                ethertype: Some(14),
                net: 16,
                macs: false,
            },
        }
    }

    // Where the ethertype stands, if the link has one.
    pub fn ether_proto_offset(self) -> Option<u32>
        ensures { result ≡ ether_proto_offset self }
    {
        self.record().ethertype
    }

    // Where the network header starts.
    pub fn net_offset(self) -> u32
        ensures { result ≡ net_offset self }
    {
        self.record().net
    }

    // Whether a frame's MAC addresses are there.
    pub fn has_macs(self) -> bool
        ensures { result ≡ has_macs self }
    {
        self.record().macs
    }
}

impl From<u8> for LinkType {
    ghost from_gives = { λ b r. r ≡ link_of b };

    fn from(b: u8) -> LinkType {
        match b {
            0 => LinkType::Ethernet,
            1 => LinkType::RawIp,
            _ => LinkType::LinuxSll,
        }
    }
}

impl From<u8> for Dir {
    ghost from_gives = { λ b r. r ≡ dir_of b };

    fn from(b: u8) -> Dir {
        match b {
            0 => Dir::SrcOrDst,
            1 => Dir::Src,
            2 => Dir::Dst,
            _ => Dir::SrcAndDst,
        }
    }
}

impl Proto {
    // The protocol of code p; q is the number of the last two.
    pub fn of(p: u8, q: u8) -> Proto
        ensures { result ≡ proto_of p q }
    {
        match p {
            1 => Proto::Ip,
            2 => Proto::Ip6,
            3 => Proto::Arp,
            4 => Proto::Rarp,
            5 => Proto::Tcp,
            6 => Proto::Udp,
            7 => Proto::Icmp,
            8 => Proto::Icmp6,
            9 => Proto::Igmp,
            10 => Proto::Sctp,
            11 => Proto::Num(q),
            _ => Proto::Ip6Proto(q),
        }
    }

    // The same, where code 0 is none.
    pub fn maybe_of(p: u8, q: u8) -> Option<Proto>
        ensures { result ≡ maybe_proto_of p q }
    {
        if p == 0 { None } else { Some(Proto::of(p, q)) }
    }
}

impl From<u8> for ArithOp {
    ghost from_gives = { λ b r. r ≡ arith_of b };

    fn from(b: u8) -> ArithOp {
        match b {
            0 => ArithOp::Add,
            1 => ArithOp::Sub,
            2 => ArithOp::Mul,
            3 => ArithOp::Div,
            4 => ArithOp::Mod,
            5 => ArithOp::And,
            6 => ArithOp::Or,
            7 => ArithOp::Xor,
            8 => ArithOp::Shl,
            _ => ArithOp::Shr,
        }
    }
}

impl From<u8> for CmpOp {
    ghost from_gives = { λ b r. r ≡ cmp_of b };

    fn from(b: u8) -> CmpOp {
        match b {
            0 => CmpOp::Eq,
            1 => CmpOp::Ne,
            2 => CmpOp::Lt,
            3 => CmpOp::Le,
            4 => CmpOp::Gt,
            5 => CmpOp::Ge,
            _ => CmpOp::BitAnd,
        }
    }
}

impl From<u8> for Layer {
    ghost from_gives = { λ b r. r ≡ layer_of b };

    fn from(b: u8) -> Layer {
        match b {
            0 => Layer::Raw,
            1 => Layer::Net,
            _ => Layer::Trans,
        }
    }
}

impl From<u8> for AccessSize {
    ghost from_gives = { λ b r. r ≡ access_size_of b };

    fn from(b: u8) -> AccessSize {
        match b {
            0 => AccessSize::Byte,
            1 => AccessSize::Half,
            _ => AccessSize::Word,
        }
    }
}

impl AccessSize {
    pub fn bytes(self) -> u8
        ensures { result ≡ bytes_of self }
    {
        match self {
            AccessSize::Byte => 1,
            AccessSize::Half => 2,
            AccessSize::Word => 4,
        }
    }
}

impl Ipv6Addr {
    // `addr.segments()[i]`; past the last stands the last. One segment and no array of eight: a caller wants one at a time.
    pub fn segment(self, i: u32) -> u16
        ensures { result ≡ segment_of self i }
    {
        let from_here = if i < 4 {
            self.hi >> (16 * (3 - i))
        } else {
            self.lo >> (16 * 7u32.saturating_sub(i))
        };
        (from_here % 65536) as u16
    }
}
