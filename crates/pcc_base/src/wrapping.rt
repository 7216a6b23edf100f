ghost use Rattle.std.specs.Prelude.{ℕ, ℤ, ◌≡◌, ◌<◌, pos, ◌*ℤ◌, ◌≤ℤ◌, ◌<ℤ◌, ◌^◌, neg_ℤ};
ghost use Rattle.pcc_base.specs.Wrapping.{IsWrapped, IsCongruent};

/// The number from `-half` to `half - 1` that equals `n` modulo `2 * half`.
fn wrapped(n: i64, half: i64) -> i64
    requires positive { pos 0 <ℤ half }
    requires small { half ≤ℤ pos (2 ^ 31) }
    ensures above { neg_ℤ half ≤ℤ result }
    ensures below { result <ℤ half }
    ensures congruent { IsCongruent (pos 2 *ℤ half) n result }
{
    let low = n.rem_euclid(2 * half);
    if low < half { low } else { low - 2 * half }
}

/// The signed number of 8 bits that equals `n` modulo 2 to the power 8 (C99 6.3.1.3).
pub fn wrap8(n: i64) -> i32
    ensures { IsWrapped 8 n result }
{
    wrapped(n, 1 << 7) as i32
}

/// The signed number of 16 bits that equals `n` modulo 2 to the power 16 (C99 6.3.1.3).
pub fn wrap16(n: i64) -> i32
    ensures { IsWrapped 16 n result }
{
    wrapped(n, 1 << 15) as i32
}

/// The signed number of 32 bits that equals `n` modulo 2 to the power 32 (C99 6.3.1.3).
pub fn wrap32(n: i64) -> i32
    ensures { IsWrapped 32 n result }
{
    wrapped(n, 1 << 31) as i32
}

/// A number equals, modulo 2 to the power `w`, only one signed number of `w` bits.
pub fn wrapped_once()
    ensures { (w : ℕ) (z a b : ℤ) → 0 < w → IsWrapped w z a → IsWrapped w z b → a ≡ b }
{}
