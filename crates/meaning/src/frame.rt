// What is read of a frame, `past` bytes after `base`: both have 32 bits, so that no place wraps. They are no struct: callers add one to the other and keep neither.
#![tactic(auto, unfolding(crate::specs::Frame::there))]

ghost use Rattle.std.specs.Prelude.{ℕ, Bool, ◌≡◌, ◌+◌, ◌^◌, ◌<◌, ◌≤◌, bit_and, nat_eq};
ghost use Rattle.meaning.specs.Frame.{there, number, passes, Answers};

fn place(base: u32, past: u32) -> usize
    ensures { (result ≡ base + past) × (result < 2 ^ 33) }
{
    base as usize + past as usize
}

// A byte past the end is 0, so that no reader asks for a length. filter has one too, for its own use alone.
fn byte(frame: &[u8], p: usize) -> u8
    ensures { result ≡ number frame.now 1 p }
{
    frame.get(p).copied().unwrap_or(0)
}

// The number of n bytes, the first byte highest.
fn number(frame: &[u8], n: u8, base: u32, past: u32) -> u64
    requires { n ≤ 8 }
    ensures number { result ≡ number frame.now n (base + past) }
    ensures fits { result < 256 ^ n }
{
    let p = place(base, past);
    let mut joined = 0;
    for k in 0..n {
        joined = joined * 256 + byte(frame, p + k as usize) as u64;
    }
    joined
}

// Whether n bytes are there.
pub fn has(frame: &[u8], n: u8, base: u32, past: u32) -> bool
    ensures { result ≡ there frame.now n (base + past) }
{
    place(base, past) + n as usize <= frame.len()
}

// A reader for each width: each answers a type of its own, as wide as the number.
pub fn byte_at(frame: &[u8], base: u32, past: u32) -> u8
    ensures { result ≡ number frame.now 1 (base + past) }
{
    number(frame, 1, base, past) as u8
}

pub fn half_at(frame: &[u8], base: u32, past: u32) -> u16
    ensures { result ≡ number frame.now 2 (base + past) }
{
    number(frame, 2, base, past) as u16
}

pub fn word_at(frame: &[u8], base: u32, past: u32) -> u32
    ensures { result ≡ number frame.now 4 (base + past) }
{
    number(frame, 4, base, past) as u32
}

// A MAC address, six bytes.
pub fn mac_at(frame: &[u8], base: u32, past: u32) -> u64
    ensures { result ≡ number frame.now 6 (base + past) }
{
    number(frame, 6, base, past)
}

// Whether the n bytes are there and their number passes a test.
pub(crate) fn passes<F: Fn(u64) -> bool>(frame: &[u8], n: u8, base: u32, past: u32, test: F) -> bool
    requires long { n ≤ 8 }
    requires test { F.IsAlwaysCallable test }
    ensures { (asked : ℕ → Bool) → Answers (F.post test) asked → result ≡ passes frame.now n (base + past) asked }
{
    has(frame, n, base, past) && test(number(frame, n, base, past))
}

// Whether the byte is there and is k. Each width keeps its name here too: it takes a number of its own type.
pub fn byte_is(frame: &[u8], base: u32, past: u32, k: u8) -> bool
    ensures { result ≡ passes frame.now 1 (base + past) (nat_eq k) }
{
    passes(frame, 1, base, past, |b| k as u64 == b)
}

pub fn half_is(frame: &[u8], base: u32, past: u32, k: u16) -> bool
    ensures { result ≡ passes frame.now 2 (base + past) (nat_eq k) }
{
    passes(frame, 2, base, past, |h| k as u64 == h)
}

pub fn word_is(frame: &[u8], base: u32, past: u32, k: u32) -> bool
    ensures { result ≡ passes frame.now 4 (base + past) (nat_eq k) }
{
    passes(frame, 4, base, past, |w| k as u64 == w)
}

pub fn mac_is(frame: &[u8], base: u32, past: u32, k: u64) -> bool
    ensures { result ≡ passes frame.now 6 (base + past) (nat_eq k) }
{
    passes(frame, 6, base, past, |m| k == m)
}

// Whether the half is there and has k's bits under the mask.
pub fn half_under(frame: &[u8], base: u32, past: u32, mask: u16, k: u16) -> bool
    ensures { result ≡ passes frame.now 2 (base + past) (λ h. nat_eq (bit_and h mask) (bit_and k mask)) }
{
    let bits = (k & mask) as u64;
    passes(frame, 2, base, past, |h| h & mask as u64 == bits)
}

pub fn word_under(frame: &[u8], base: u32, past: u32, mask: u32, k: u32) -> bool
    ensures { result ≡ passes frame.now 4 (base + past) (λ w. nat_eq (bit_and w mask) (bit_and k mask)) }
{
    let bits = (k & mask) as u64;
    passes(frame, 4, base, past, |w| w & mask as u64 == bits)
}
