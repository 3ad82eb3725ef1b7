//! The bytes of a file that are left, and numbers from them.

ghost use Rattle.std.specs.Prelude.{◌≡◌, ◌≤◌, ◌-◌, [], length, OnOk};
ghost use Rattle.code_file.specs.Fields as field;
ghost use Rattle.code_file.specs.Reads as reads;
ghost use Rattle.code_file.specs.Fields.{Follows, FollowsBy};

use crate::fault::ReadFault;

/// The bytes of a file that are not read yet.
#[derive(Drop)]
pub struct Cursor<'a> {
    /// How many bytes the file has.
    whole: usize,
    rest: &'a [u8],
    ghost within: { length rest.now ≤ whole },
}

impl<'a> Cursor<'a> {
    /// At the first byte of a file.
    pub fn new(bytes: &'a [u8]) -> Cursor<'a>
        ensures whole { result.whole ≡ length bytes.now }
        ensures rest { result.rest.now ≡ bytes.now }
    {
        Cursor {
            whole: bytes.len(),
            rest: bytes,
        }
    }

    /// The fault of a field that begins here.
    pub fn bad(&self) -> ReadFault
        ensures { result ≡ ReadFault.BadField (self.now.whole - length self.now.rest.now) }
    {
        ReadFault::BadField {
            at: self.whole - self.rest.len(),
        }
    }

    /// Goes behind the first four bytes of a code file.
    pub fn magic(&mut self) -> Result<(), ReadFault>
        ensures reads { Follows
            (reads.magic self.old.whole self.old.rest.now) result self.new.rest.now }
        ensures whole { self.new.whole ≡ self.old.whole }
    {
        if self.rest.starts_with(b"REVC") {
            self.rest = &self.rest[4..];
            return Ok(());
        }
        if b"REVC".starts_with(self.rest) {
            return Err(ReadFault::Truncated { at: self.whole });
        }
        Err(ReadFault::BadMagic)
    }

    /// Whether all bytes are read.
    pub fn at_end(&mut self) -> Result<(), ReadFault>
        ensures reads { Follows
            (reads.at_end self.old.whole self.old.rest.now) result self.new.rest.now }
        ensures end { OnOk result (self.new.rest.now ≡ []) }
        ensures whole { self.new.whole ≡ self.old.whole }
    {
        if self.rest.is_empty() {
            return Ok(());
        }
        Err(ReadFault::Trailing {
            at: self.whole - self.rest.len(),
        })
    }

    /// A field of so many bytes.
    pub fn bytes(&mut self, count: usize) -> Result<&'a [u8], ReadFault>
        ensures reads { FollowsBy
            (field.bytes_of count self.old.whole self.old.rest.now)
            result (λ front. front.now) self.new.rest.now }
        ensures whole { self.new.whole ≡ self.old.whole }
    {
        if self.rest.len() < count {
            return Err(ReadFault::Truncated { at: self.whole });
        }
        let (front, rest) = self.rest.split_at(count);
        self.rest = rest;
        Ok(front)
    }

    /// The next byte. Where there is none, the bytes end too early.
    pub fn number_8(&mut self) -> Result<u8, ReadFault>
        ensures reads { Follows
            (field.number_8 self.old.whole self.old.rest.now) result self.new.rest.now }
        ensures whole { self.new.whole ≡ self.old.whole }
    {
        match self.rest {
            [byte, rest @ ..] => {
                self.rest = rest;
                Ok(*byte)
            }
            [] => Err(ReadFault::Truncated { at: self.whole }),
        }
    }

    /// The number of the next two bytes, the greater one first.
    pub fn number_16(&mut self) -> Result<u16, ReadFault>
        ensures reads { Follows
            (field.number_16 self.old.whole self.old.rest.now) result self.new.rest.now }
        ensures whole { self.new.whole ≡ self.old.whole }
    {
        let b = self.bytes(2)?;
        Ok(u16::from_be_bytes([b[0], b[1]]))
    }

    /// The number of the next four bytes, the greatest first.
    pub fn number_32(&mut self) -> Result<u32, ReadFault>
        ensures reads { Follows
            (field.number_32 self.old.whole self.old.rest.now) result self.new.rest.now }
        ensures whole { self.new.whole ≡ self.old.whole }
    {
        let b = self.bytes(4)?;
        Ok(u32::from_be_bytes([b[0], b[1], b[2], b[3]]))
    }

    /// The number of the next eight bytes, the greatest first.
    pub fn number_64(&mut self) -> Result<u64, ReadFault>
        ensures reads { Follows
            (field.number_64 self.old.whole self.old.rest.now) result self.new.rest.now }
        ensures whole { self.new.whole ≡ self.old.whole }
    {
        let b = self.bytes(8)?;
        Ok(u64::from_be_bytes([b[0], b[1], b[2], b[3], b[4], b[5], b[6], b[7]]))
    }
}
