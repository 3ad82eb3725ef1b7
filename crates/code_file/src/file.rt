//! A code file, read from its first byte to its last.

ghost use Rattle.std.specs.Prelude.{◌≡◌, ◌≢◌, [], IfErr, IfOk, OnOk};
ghost use Rattle.code_rules.specs.Tables as tables;
ghost use Rattle.code_file.specs.Fields.{Follows};
ghost use Rattle.code_file.specs.Parts as part;
ghost use Rattle.code_file.specs.Reads as reads;
ghost use Rattle.code_file.specs.Laws.{IsFile, IsFirstFault};
ghost use Rattle.code_file.specs.declared.fault.ReadFault.{ReadFault};
ghost use Rattle.code_file.specs.declared.fault.ReadFault.TheVariants as fault;
ghost use Rattle.rev_code.specs.declared.code.Code.{Code};

use crate::count::{locations, tries};
use crate::cursor::Cursor;
use crate::fault::ReadFault;
use crate::read::{blocks, layouts, texts, vars};
use crate::values::{has_tries, is_wide, version_of};
use crate::version::Version;
use rev_code::{Code, CodeBlock, CodeVar};
use rev_num::word_laws;
use std::alloc::Global;

/// The version, behind the magic.
fn version(cursor: &mut Cursor<'_>) -> Result<Version, ReadFault>
    ensures reads { Follows
        (reads.version cursor.old.whole cursor.old.rest.now) result cursor.new.rest.now }
    ensures whole { cursor.new.whole ≡ cursor.old.whole }
{
    let number = cursor.number_16()?;
    version_of(number).ok_or(ReadFault::BadVersion)
}

/// The number of locations, where the version has that field.
#[tactic(auto, unfolding(crate::specs::Reads::location_count, crate::specs::Fields::tested), using(crate::proofs::Counts::capped))]
fn location_count(cursor: &mut Cursor<'_>, wide: bool, vars: &[CodeVar]) -> Result<(), ReadFault>
    ensures reads { Follows
        (reads.location_count wide (tables.locations vars.now) cursor.old.whole cursor.old.rest.now)
        result cursor.new.rest.now }
    ensures whole { cursor.new.whole ≡ cursor.old.whole }
{
    if !wide {
        return Ok(());
    }
    let bad = cursor.bad();
    let count = cursor.number_32()?;
    if count as u64 != locations(vars) || count <= 64 {
        return Err(bad);
    }
    Ok(())
}

/// The number of `TryJoin`, where the version has that field.
#[tactic(auto, unfolding(crate::specs::Reads::try_total, crate::specs::Fields::tested), using(crate::proofs::Counts::capped))]
fn try_total(
    cursor: &mut Cursor<'_>,
    may_try: bool,
    wide: bool,
    blocks: &[CodeBlock],
) -> Result<(), ReadFault>
    ensures reads { Follows
        (reads.try_total may_try wide (part.tries blocks.now) cursor.old.whole cursor.old.rest.now)
        result cursor.new.rest.now }
    ensures whole { cursor.new.whole ≡ cursor.old.whole }
{
    if !may_try {
        return Ok(());
    }
    let bad = cursor.bad();
    let count = cursor.number_32()?;
    if count as u64 != tries(blocks) || (!wide && count == 0) {
        return Err(bad);
    }
    Ok(())
}

/// What stands behind the version.
#[tactic(auto, unfolding(crate::specs::Reads::code_of, crate::specs::Fields::and_then))]
fn code_of(
    alloc: Global,
    cursor: &mut Cursor<'_>,
    wide: bool,
    may_try: bool,
) -> Result<Code, ReadFault>
    ensures reads { Follows
        (reads.code_of wide may_try cursor.old.whole cursor.old.rest.now)
        result cursor.new.rest.now }
    ensures whole { cursor.new.whole ≡ cursor.old.whole }
{
    let vars = vars(alloc, cursor, wide)?;
    location_count(cursor, wide, vars.as_slice())?;
    let texts = texts(alloc, cursor)?;
    let layouts = layouts(alloc, cursor)?;
    let blocks = blocks(alloc, cursor, may_try)?;
    try_total(cursor, may_try, wide, blocks.as_slice())?;
    Ok(Code {
        vars,
        texts,
        layouts,
        blocks,
    })
}

/// A whole file.
#[tactic(auto, unfolding(crate::specs::Reads::file, crate::specs::Fields::and_then))]
fn file(alloc: Global, cursor: &mut Cursor<'_>) -> Result<Code, ReadFault>
    ensures reads { Follows
        (reads.file cursor.old.whole cursor.old.rest.now) result cursor.new.rest.now }
    ensures end { OnOk result (cursor.new.rest.now ≡ []) }
{
    cursor.magic()?;
    let version = version(cursor)?;
    let code = code_of(alloc, cursor, is_wide(version), has_tries(version))?;
    cursor.at_end()?;
    Ok(code)
}

/// The code whose file the bytes are, or else their first fault in the order of the file;
/// `OutOfMemory` says nothing of them.
pub fn read_code(alloc: Global, bytes: &[u8]) -> Result<Code, ReadFault>
    ensures code { IfOk result (λ code. IsFile code bytes.now) }
    ensures fault { IfErr result (λ e. e ≢ ReadFault.OutOfMemory → IsFirstFault bytes.now e) }
    ensures back { (code : Code) → IsFile code bytes.now → IfOk result (λ c. c ≡ code) }
    ensures memory { (code : Code) → IsFile code bytes.now
        → IfErr result (λ e. e ≡ fault.OutOfMemory) }
{
    word_laws();
    let mut cursor = Cursor::new(bytes);
    file(alloc, &mut cursor)
}
