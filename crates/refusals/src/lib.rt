// The refusals of documents 01 and 02: why something is refused, under the papers' numbers, and the place that the papers give beside it.
#![tactic(auto)]

ghost use Rattle.std.specs.Prelude.{◌≡◌};
ghost use Rattle.refusals.specs.Refusal.{number_of};

// Each under the number that the papers give it.
#[derive(Clone, Copy, PartialEq, Eq)]
pub enum Reason {
    // A link above 2, or a mode above 1.
    LinkOrMode = 1,
    // The sheet's length differs from what its counts ask, or a count is cut.
    SheetLength = 2,
    // A code or an unused byte is wrong.
    WrongByte = 3,
    // The tokens are not one whole tree, or primitives or steps are left over or lacking.
    NotOneTree = 4,
    // A byte access's left offset is negative, or above 32767.
    FarOffset = 5,
    // A shift by 32 or more.
    BigShift = 6,
    // The output is below 8 x L bytes, or below the new sheet.
    ShortOutput = 7,
    // The work is below L + 8 x tokens numbers.
    ShortWork = 8,
    // The tree is deeper than 256.
    DeepTree = 9,
    // A jump distance above 32767.
    FarJump = 10,
    // An ethertype on RawIp other than 0x0800.
    NoEthertype = 11,
    // Ports of a protocol that has none.
    NoPorts = 12,
    // EtherHost on a link without MAC addresses.
    NoEtherHost = 13,
    // EtherMulticast on a link without MAC addresses.
    NoEtherMulticast = 14,
    // Mpls on RawIp.
    NoMpls = 15,
    // Inbound or Outbound.
    NoDirection = 16,
    // A comparison with a load.
    ComparedWithLoad = 17,
    // A step that divides by 0.
    DivisionByZero = 18,
    // A step of the operator Mod.
    Modulo = 19,
    // A savefile of unknown magic.
    UnknownMagic = 40,
    // A savefile of another link type.
    OtherLinkType = 41,
    // The file ends inside a header or a record.
    FileEnds = 42,
    // A captured length above 16,384.
    LongRecord = 43,
    // The new tree needs more than 65,535 tokens.
    ManyTokens = 50,
}

// A reason, and the place that the papers give beside it: a byte of the sheet or the file, the number of a primitive, or 0.
#[derive(Clone, Copy, PartialEq, Eq)]
pub struct Refusal {
    pub reason: Reason,
    pub place: usize,
}

impl Reason {
    // The papers' number.
    pub fn number(self) -> u8
        ensures { result ≡ number_of self }
    {
        self as u8
    }

    // The refusal for this reason at a place.
    pub fn at(self, place: usize) -> Refusal
        ensures { result ≡ record { reason = self; place = place } }
    {
        Refusal {
            reason: self,
            place,
        }
    }
}
