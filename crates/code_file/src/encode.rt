//! The file of code.

ghost use Rattle.std.specs.Prelude.{◌≡◌, ◌<◌, ◌++◌, [], None, IfOk, OnOk};
ghost use Rattle.code_rules.specs.Tables as tables;
ghost use Rattle.code_rules.specs.Verdict.{first_fault};
ghost use Rattle.code_file.specs.Counts.{Counted};
ghost use Rattle.code_file.specs.Fields.{Got};
ghost use Rattle.code_file.specs.Files as files;
ghost use Rattle.code_file.specs.Files.{file_of};
ghost use Rattle.code_file.specs.Laws.{IsFile};
ghost use Rattle.code_file.specs.Reads.{reading};
ghost use Rattle.code_file.specs.Parts as part;

use crate::count::{locations, tries};
use crate::values::{has_tries, is_wide};
use crate::version::Version;
use crate::widths::note_widths;
use crate::write::{
    append_16, append_32, append_counted_blocks, append_counted_layouts, append_counted_texts,
    append_counted_vars,
};
use rev_code::{Code, CodeBlock, CodeVar};
use rev_num::word_laws;
use std::alloc::{AllocError, Global};

/// The version of the file of code.
pub fn version_for(code: &Code) -> Version
    ensures { result ≡ files.version_for code.now }
{
    if locations(code.vars.as_slice()) > 64 {
        return Version::Three;
    }
    if tries(code.blocks.as_slice()) > 0 {
        return Version::Two;
    }
    Version::One
}

/// The number of a version in its file: 1, 2 or 3.
pub fn version_number(version: Version) -> u16
    ensures { result ≡ files.version_number version }
{
    match version {
        Version::One => 1,
        Version::Two => 2,
        Version::Three => 3,
    }
}

/// Appends the number of locations, where the version has that field.
fn append_location_count(out: &mut Vec<u8>, wide: bool, vars: &[CodeVar]) -> Result<(), AllocError>
    requires { tables.locations vars.now < 4294967296 }
    ensures { OnOk result (out.new.items ≡
        out.old.items ++ files.location_bytes wide (tables.locations vars.now)) }
{
    if !wide {
        return Ok(());
    }
    append_32(out, locations(vars) as u32)
}

/// Appends the number of `TryJoin`, where the version has that field.
fn append_try_total(
    out: &mut Vec<u8>,
    may_try: bool,
    blocks: &[CodeBlock],
) -> Result<(), AllocError>
    requires { part.tries blocks.now < 4294967296 }
    ensures { OnOk result (out.new.items ≡
        out.old.items ++ files.try_bytes may_try (part.tries blocks.now)) }
{
    if !may_try {
        return Ok(());
    }
    append_32(out, tries(blocks) as u32)
}

/// Appends what stands behind the version.
#[tactic(auto, unfolding(crate::specs::Files::body_bytes))]
fn append_body(out: &mut Vec<u8>, wide: bool, may_try: bool, code: &Code) -> Result<(), AllocError>
    requires { Counted code.now }
    ensures { OnOk result (out.new.items ≡
        out.old.items ++ files.body_bytes wide may_try code.now) }
{
    append_counted_vars(out, code.vars.as_slice())?;
    append_location_count(out, wide, code.vars.as_slice())?;
    append_counted_texts(out, code.texts.as_slice())?;
    append_counted_layouts(out, code.layouts.as_slice())?;
    append_counted_blocks(out, code.blocks.as_slice())?;
    append_try_total(out, may_try, code.blocks.as_slice())
}

#[tactic(auto, unfolding(crate::specs::Files::file_of))]
fn file_bytes(alloc: Global, code: &Code) -> Result<Vec<u8>, AllocError>
    requires { Counted code.now }
    ensures { IfOk result (λ bytes. bytes.items ≡ file_of code.now) }
{
    let version = version_for(code);
    let mut out = Vec::new(alloc);
    out.extend_from_slice(b"REVC")?;
    append_16(&mut out, version_number(version))?;
    append_body(&mut out, is_wide(version), has_tries(version), code)?;
    Ok(out)
}

/// The file of code, each of whose counts and lengths must fit its field. Code that the verifier
/// accepts has such counts where it has fewer than 2^32 `TryJoin`, and what is written of it is
/// read again as the same code.
pub fn write_code(alloc: Global, code: &Code) -> Result<Vec<u8>, AllocError>
    requires { Counted code.now }
    ensures file { IfOk result (λ bytes. bytes.items ≡ file_of code.now) }
    ensures has { first_fault code.now ≡ None
        → IfOk result (λ bytes. IsFile code.now bytes.items) }
    ensures back { first_fault code.now ≡ None
        → IfOk result (λ bytes. reading bytes.items ≡ Got code.now []) }
{
    word_laws();
    note_widths(code);
    let bytes = file_bytes(alloc, code)?;
    Ok(bytes)
}
