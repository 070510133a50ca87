// Big-endian numbers in a part of the sheet. A byte past the end is 0, so that no reader asks for a length.
#![tactic(auto, unfolding(crate::specs::Bytes::be2, crate::specs::Bytes::be4, crate::specs::Bytes::be6, crate::specs::Bytes::be8))]

ghost use Rattle.std.specs.Prelude.{◌≡◌, ◌+◌, ◌*◌, ◌<◌, ◌^◌, get_or};
ghost use Rattle.filter.specs.Bytes.{be2, be4, be6, be8};

// A function for each width: they differ in the type that they answer and in the bytes that they read.
pub(crate) fn byte(s: &[u8], p: usize) -> u8
    ensures { result ≡ get_or s.now p 0 }
{
    s.get(p).copied().unwrap_or(0)
}

fn half(s: &[u8], p: usize) -> u16
    requires { p < 2 ^ 40 }
    ensures { result ≡ be2 s.now p }
{
    u16::from(byte(s, p)) * 256 + u16::from(byte(s, p + 1))
}

// By halves, as the definition has it: `from_be_bytes` of bytes that are read one by one costs 7% more on a chain of steps.
fn word(s: &[u8], p: usize) -> u32
    requires { p < 2 ^ 39 }
    ensures { result ≡ be4 s.now p }
{
    u32::from(half(s, p)) * 65536 + u32::from(half(s, p + 2))
}

pub fn count_at(s: &[u8], p: u32) -> u16
    ensures { result ≡ be2 s.now p }
{
    half(s, p as usize)
}

pub fn token_at(s: &[u8], p: u32) -> u8
    ensures { result ≡ get_or s.now p 0 }
{
    byte(s, p as usize)
}

// The first byte of the step k places after step `from`.
pub fn step_code(s: &[u8], from: u32, k: u16) -> u8
    ensures { result ≡ get_or s.now (5 * (from + k)) 0 }
{
    byte(s, 5 * (from as usize + usize::from(k)))
}

pub fn step_operand(s: &[u8], from: u32, k: u16) -> u32
    ensures { result ≡ be4 s.now (5 * (from + k) + 1) }
{
    word(s, 5 * (from as usize + usize::from(k)) + 1)
}

// Record i of the primitives, whose records are 24 bytes long.
#[derive(Clone, Copy)]
pub struct Record<'a> {
    pub part: &'a [u8],
    pub i: u32,
}

// A reader for each size: each answers a type of its own, as wide as the number.
impl Record<'_> {
    // Where byte k of the record stands.
    fn place(self, k: u8) -> usize
        ensures { (result ≡ 24 * self.entry.i + k) × (result < 2 ^ 38) }
    {
        24 * self.i as usize + usize::from(k)
    }

    pub fn kind(self) -> u8
        ensures { result ≡ get_or self.entry.part.now (24 * self.entry.i) 0 }
    {
        byte(self.part, 24 * self.i as usize)
    }

    // Each width keeps its name, for docs/PROMISES.md has a theorem of each.
    pub fn byte(self, k: u8) -> u8
        ensures { result ≡ get_or self.entry.part.now (24 * self.entry.i + k) 0 }
    {
        byte(self.part, self.place(k))
    }

    pub fn half(self, k: u8) -> u16
        ensures { result ≡ be2 self.entry.part.now (24 * self.entry.i + k) }
    {
        half(self.part, self.place(k))
    }

    pub fn word(self, k: u8) -> u32
        ensures { result ≡ be4 self.entry.part.now (24 * self.entry.i + k) }
    {
        word(self.part, self.place(k))
    }

    // A MAC address, six bytes.
    pub fn mac(self, k: u8) -> u64
        ensures { result ≡ be6 self.entry.part.now (24 * self.entry.i + k) }
    {
        let p = self.place(k);
        u64::from(word(self.part, p)) * 65536 + u64::from(half(self.part, p + 4))
    }

    // Half of an IPv6 address, eight bytes.
    pub fn long(self, k: u8) -> u64
        ensures { result ≡ be8 self.entry.part.now (24 * self.entry.i + k) }
    {
        let p = self.place(k);
        u64::from(word(self.part, p)) * 4294967296 + u64::from(word(self.part, p + 4))
    }
}
