//! Questions after all numbers below a bound. Each asks that its test can be called at the numbers below the bound: only the caller
//! knows that of its closure, so no type can keep it.
ghost use Rattle.model.specs.Tests.{every, some, lowest, count, Answers};
ghost use Rattle.std.specs.Prelude.{◌≡◌, ◌<◌, ℕ, Bool};

/// The lowest number below the bound at which the test passes.
pub fn lowest_below<F: Fn(u8) -> bool>(bound: u8, test: F) -> Option<u8>
    requires { (k : ℕ) → k < bound → F.pre test k }
    ensures { (p : ℕ → Bool) → Answers (F.post test) p bound → result ≡ lowest p bound }
{
    (0..bound).find(
        |number|
            requires { F.pre test number.now }
        { test(*number) },
    )
}

/// Does the test pass at some number below the bound?
pub fn any_below<F: Fn(u8) -> bool>(bound: u8, test: F) -> bool
    requires { (k : ℕ) → k < bound → F.pre test k }
    ensures { (p : ℕ → Bool) → Answers (F.post test) p bound → result ≡ some p bound }
{
    lowest_below(bound, test).is_some()
}

/// Does the test pass at every number below the bound?
pub fn all_below<F: Fn(u8) -> bool>(bound: u8, test: F) -> bool
    requires { (k : ℕ) → k < bound → F.pre test k }
    ensures { (p : ℕ → Bool) → Answers (F.post test) p bound → result ≡ every p bound }
{
    (0..bound).all(test)
}

/// At how many numbers below the bound does the test pass? A loop: with `filter` and `count` all was proved but the answer, since
/// what the library tells of a filter is of a closure that answers as one function at every number. What this test answers is
/// known below the bound alone.
pub fn count_below<F: Fn(u8) -> bool>(bound: u8, test: F) -> u8
    requires { (k : ℕ) → k < bound → F.pre test k }
    ensures { (p : ℕ → Bool) → Answers (F.post test) p bound → result ≡ count p bound }
{
    let mut found = 0;
    for number in 0..bound {
        if test(number) {
            found += 1;
        }
    }
    found
}
