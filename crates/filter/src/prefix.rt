// The mask of a segment of an IPv6 address, by subtraction (document 02, A2).
#![tactic(auto, unfolding(crate::specs::Prefix::prefix_mask))]

ghost use Rattle.std.specs.Prelude.{◌≡◌};
ghost use Rattle.filter.specs.Prefix.{prefix_mask};

// 65536 minus the power of two for the bits that are not covered; above 16 covered bits act as 16.
pub fn prefix_mask(bits: u32) -> u32
    ensures { result ≡ prefix_mask bits }
{
    65536 - (1 << 16u32.saturating_sub(bits))
}
