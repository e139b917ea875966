//! Products that stop growing at a limit.
ghost use Rattle.std.specs.Prelude.{◌≡◌, ℕ, ◌*◌, ◌<◌, ◌≤◌, min};
ghost use Rattle.sealing.specs.Factors.{Gives};
ghost use Rattle.units.specs.Counting.{product};
ghost use Rattle.units.specs.Sealing.{times_if};

/// How many values a name adds: top and one more if it is seen, else one.
pub fn values(seen: bool, top: u8) -> u64
    ensures told { result ≡ times_if seen top }
    ensures small { result ≤ 256 }
{
    if seen { top as u64 + 1 } else { 1 }
}

/// The product, or the limit where it is more.
pub fn times(product: u64, factor: u64, most: u64) -> u64
    ensures { result ≡ min (product * factor) most }
{
    product.saturating_mul(factor).min(most)
}

/// The product of what the factors are at all numbers below the bound, or the limit where it is more. A loop: with `fold` all was
/// proved but the answer, since what it promises of the total is of a closure that computes one function at every number, and what
/// this factor is is known below the bound alone.
pub fn product_below<F: Fn(u8) -> u64>(bound: u8, most: u64, factor: F) -> u64
    requires callable { (k : ℕ) → k < bound → F.pre factor k }
    requires limit { 1 ≤ most }
    ensures { (f : ℕ → ℕ) → Gives (F.post factor) f bound → result ≡ min (product f bound) most }
{
    let mut all = 1;
    for number in 0..bound {
        all = times(all, factor(number), most);
    }
    all
}
