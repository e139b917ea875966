//! Reading the bytes of a table one by one, from the front.
ghost use Rattle.std.specs.Prelude.{◌≤◌, length};

use language::Rule;
use model::{Fault, Kind};

// The most bytes that a table may have.
const LIMIT: usize = 4_096;

/// The bytes, at most 4,096, and the place up to where they have been read.
#[derive(Drop)]
pub struct Reader<'a> {
    bytes: &'a [u8],
    place: usize,
    ghost few: { length bytes.now ≤ 4096 },
    ghost inside: { place ≤ length bytes.now },
}

impl<'a> Reader<'a> {
    ghost use Rattle.language.specs.Rules.{rule_fault};
    ghost use Rattle.language.specs.Tables.{between, byte_item, kind_of};
    ghost use Rattle.std.specs.Prelude.{◌≡◌};
    ghost use Rattle.std.specs.Result.{result_map_both};
    ghost use Rattle.table.specs.Reads.{Begins, Tells, end_check, any_byte, any_part, any_word};

    /// At the front of the bytes, if there are not too many.
    pub fn new(bytes: &'a [u8]) -> Result<Reader<'a>, Fault>
        ensures { Begins bytes.now result }
    {
        if bytes.len() <= LIMIT {
            Ok(Reader { bytes, place: 0 })
        } else {
            Err(Rule::TooManyBytes.broken_at(0))
        }
    }

    // Bytes that are missing are missed where the bytes end.
    fn missing(&self) -> Fault
        ensures { result ≡ rule_fault Rule.BytesMissing (length self.now.bytes.now) }
    {
        Rule::BytesMissing.broken_at(self.bytes.len())
    }

    fn byte(&mut self) -> Result<u8, Fault>
        ensures { Tells any_byte self.old self.new result }
    {
        let byte = *self.bytes.get(self.place).ok_or(self.missing())?;
        self.place += 1;
        Ok(byte)
    }

    /// A byte that must lie in a range.
    pub fn byte_between(&mut self, rule: Rule, low: u8, high: u8) -> Result<u8, Fault>
        ensures { Tells (byte_item rule (between low high)) self.old self.new result }
    {
        let place = self.place;
        let byte = self.byte()?;
        if low <= byte && byte <= high {
            Ok(byte)
        } else {
            Err(rule.broken_at(place))
        }
    }

    /// A variable's kind.
    pub fn kind(&mut self) -> Result<Kind, Fault>
        ensures { Tells (byte_item Rule.WrongVariable kind_of) self.old self.new result }
    {
        let place = self.place;
        Kind::try_from(self.byte()?).map_err(|_| Rule::WrongVariable.broken_at(place))
    }

    /// The number that four bytes make, the highest first.
    pub fn word(&mut self) -> Result<u32, Fault>
        ensures { Tells any_word self.old self.new result }
    {
        let bytes = [self.byte()?, self.byte()?, self.byte()?, self.byte()?];
        Ok(u32::from_be_bytes(bytes))
    }

    /// So many bytes.
    pub fn part(&mut self, size: u8) -> Result<&'a [u8], Fault>
        ensures { let part = result_map_both (λ part. part.now) (λ fault. fault) result in
            Tells (any_part size) self.old self.new part }
    {
        let start = self.place;
        let end = start + size as usize;
        if end > self.bytes.len() {
            return Err(self.missing());
        }
        self.place = end;
        Ok(&self.bytes[start..end])
    }

    /// Up to where the bytes have been read.
    pub fn place(&self) -> u16
        ensures { result ≡ self.now.place }
    {
        self.place as u16
    }

    /// Nothing may be left over.
    pub fn end(&self) -> Result<(), Fault>
        ensures { result ≡ end_check self.now }
    {
        if self.place == self.bytes.len() {
            Ok(())
        } else {
            Err(Rule::BytesLeftOver.broken_at(self.place))
        }
    }
}
