// The arithmetic of RFC 9669 on 32 and 64 bits. Sums, differences, products and shifts wrap on purpose.
ghost use Rattle.std.specs.Prelude.{◌≡◌, ◌*◌, ◌%◌, ◌^◌};
ghost use Rattle.ebpf.specs.Alu.{sext16, sext32, alu32, alu64, swapped, compares, compares_imm};

// 16 bits widened to 64 with their sign. This and `wide32` stay two functions: a bound for both would be longer than they are.
#[tactic(auto, unfolding(crate::specs::Alu::sext16))]
pub(crate) fn wide16(x: u16) -> u64
    ensures { result ≡ sext16 x }
{
    i64::from(x.cast_signed()).cast_unsigned()
}

// 32 bits widened to 64 with their sign.
#[tactic(auto, unfolding(crate::specs::Alu::sext32))]
pub(crate) fn wide32(x: u32) -> u64
    ensures { result ≡ sext32 x }
{
    i64::from(x.cast_signed()).cast_unsigned()
}

// The low 32 bits: today's language has no `as` that cuts.
pub(crate) fn low32(x: u64) -> u32
    ensures { result ≡ x % 2 ^ 32 }
{
    (x & 0xffff_ffff) as u32
}

// The product modulo 2^32: a helper through 64 bits, as document 01 has it. meaning has its own, and does not stand on this crate.
pub(crate) fn mul32(a: u32, b: u32) -> u32
    ensures { result ≡ a * b % 2 ^ 32 }
{
    low32(u64::from(a) * u64::from(b))
}

// The 32-bit operation whose number, RFC 9669's own, is the high half of the opcode.
#[tactic(auto, unfolding(crate::specs::Alu::alu32))]
pub(crate) fn op32(operation: u8, a: u32, b: u32) -> u32
    ensures { result ≡ alu32 operation a b }
{
    match operation {
        0 => a.wrapping_add(b),
        1 => a.wrapping_sub(b),
        2 => mul32(a, b),
        3 => if b == 0 { 0 } else { a / b },
        4 => a | b,
        5 => a & b,
        6 => a << (b % 32),
        7 => a >> (b % 32),
        10 => a ^ b,
        _ => b,
    }
}

// The 64-bit operations: add, subtract, move.
#[tactic(auto, unfolding(crate::specs::Alu::alu64))]
pub(crate) fn op64(operation: u8, a: u64, b: u64) -> u64
    ensures { result ≡ alu64 operation a b }
{
    match operation {
        0 => a.wrapping_add(b),
        1 => a.wrapping_sub(b),
        _ => b,
    }
}

// The low 16 or 32 bits in the other byte order.
#[tactic(auto, unfolding(crate::specs::Alu::swapped))]
pub(crate) fn swap(bits: u32, x: u64) -> u64
    ensures { result ≡ swapped bits x }
{
    if bits == 16 {
        u64::from(((x & 0xffff) as u16).swap_bytes())
    } else {
        u64::from(low32(x).swap_bytes())
    }
}

// The comparison whose number is the high half of the opcode, of unsigned numbers.
#[tactic(auto, unfolding(crate::specs::Alu::compares))]
pub(crate) fn compare(operation: u8, a: u64, b: u64) -> bool
    ensures { result ≡ compares operation a b }
{
    match operation {
        1 => a == b,
        2 => a > b,
        3 => a >= b,
        4 => a & b != 0,
        5 => a != b,
        10 => a < b,
        11 => a <= b,
        _ => false,
    }
}

// A conditional jump with an immediate: class 5 compares 64 bits with the widened immediate, class 6 the low 32 bits with the immediate.
pub(crate) fn compare_imm(class: u8, operation: u8, a: u64, imm: u32) -> bool
    ensures { result ≡ compares_imm class operation a imm }
{
    if class == 5 {
        compare(operation, a, wide32(imm))
    } else {
        compare(operation, u64::from(low32(a)), u64::from(imm))
    }
}
