//! Numbers in decimal digits.
ghost use Rattle.script.specs.Numbers.{Numeral, number_in};
ghost use Rattle.script.specs.declared.mistake.Mistake.TheVariants.{BadUnitNumber};
ghost use Rattle.std.specs.Prelude.{◌≡◌, IfErr};
ghost use Rattle.std.specs.Result.{OkIff};
ghost use Rattle.std.specs.Str.Parse.{digits_value};

use crate::mistake::Mistake;

// The number of 32 bits that the digits spell. `parse` alone would take a plus sign too.
fn digits_or(mistake: Mistake, word: &str) -> Result<u32, Mistake>
    ensures reads { OkIff result (Numeral 4294967296 word.now) (digits_value 10 word.now) }
    ensures blames { IfErr result (λ e. e ≡ mistake) }
{
    if word.starts_with('+') {
        return Err(mistake);
    }
    word.parse::<u32>().map_err(|_| mistake)
}

// The number of 8 bits that the digits spell.
fn small_or(mistake: Mistake, word: &str) -> Result<u8, Mistake>
    ensures reads { OkIff result (Numeral 256 word.now) (digits_value 10 word.now) }
    ensures blames { IfErr result (λ e. e ≡ mistake) }
{
    u8::try_from(digits_or(mistake, word)?).map_err(|_| mistake)
}

/// A number from 0 to 255, or else this mistake.
pub fn number_or(mistake: Mistake, word: &str) -> Result<u8, Mistake>
    ensures { result ≡ number_in 256 mistake word.now }
{
    small_or(mistake, word)
}

/// The number of a unit, 0 to 4294967295.
pub fn unit_number(word: &str) -> Result<u32, Mistake>
    ensures { result ≡ number_in 4294967296 BadUnitNumber word.now }
{
    digits_or(Mistake::BadUnitNumber, word)
}
