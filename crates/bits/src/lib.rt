// The bits of a byte: one set or cleared, and the lowest found and taken away.
#![tactic(auto)]

ghost use Rattle.std.specs.Prelude.{◌≡◌, ◌^◌, ◌<◌, unwrap_or, MatchOption};
ghost use Rattle.protocol_types.specs.Lists.{first};
ghost use Rattle.protocol_types.specs.Bits.{bit_at};
ghost use Rattle.bits.specs.Bits.{with_bit, without_bit, without_lowest};

// The byte with bit i alone.
pub fn bit(i: u8) -> u8
    requires { i < 8 }
    ensures { result ≡ 2 ^ i }
{
    1 << i
}

// The byte with bit i set.
#[tactic(auto, using(crate::proofs::Bytes::with_is))]
pub fn with_bit(mask: u8, i: u8) -> u8
    requires { i < 8 }
    ensures { result ≡ with_bit mask i }
{
    mask | bit(i)
}

// The byte with bit i clear.
#[tactic(auto, using(crate::proofs::Bytes::without_is))]
pub fn without_bit(mask: u8, i: u8) -> u8
    requires { i < 8 }
    ensures { result ≡ without_bit mask i }
{
    mask & !bit(i)
}

// The lowest set bit.
#[tactic(auto, using(crate::proofs::Bytes::lowest_is))]
pub fn lowest(mask: u8) -> Option<u8>
    ensures value { unwrap_or result 8 ≡ first 8 (bit_at mask) }
    ensures some { MatchOption result (mask ≡ 0) (λ _. 0 < mask) }
{
    if mask == 0 {
        return None;
    }
    Some(mask.trailing_zeros() as u8)
}

// The byte without its lowest set bit.
#[tactic(auto, using(crate::proofs::Bytes::without_lowest_is))]
pub fn without_lowest(mask: u8) -> u8
    requires { 0 < mask }
    ensures { result ≡ without_lowest mask }
{
    mask & (mask - 1)
}
