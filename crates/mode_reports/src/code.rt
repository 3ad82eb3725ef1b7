//! From the bytes of a code file to code that keeps all rules, or to the report of its first fault.
ghost use Rattle.std.specs.Prelude.{◌≡◌};
ghost use Rattle.mode_reports.specs.Codes.{ChecksCode, KeepsCodeRules, ReadsFile};
ghost use Rattle.mode_reports.specs.Codes.{report_of_code, report_of_file};
ghost use Rattle.mode_reports.specs.Stops.{Meets, stop_of};
ghost use Rattle.mode_reports.specs.declared.stop.Stop.TheVariants as stops;
ghost use Rattle.rev_report.specs.declared.refusal.Refusal.TheVariants as refusals;

use crate::stop::Stop;
use code_file::{ReadFault, file_laws, read_code};
use code_verifier::{CodeFault, Verified, verify};
use rev_code::Code;
use rev_report::{FileFault, InstructionFault, Refusal};
use std::alloc::Global;

fn at_byte(at: usize, fault: FileFault) -> Stop
    ensures { result ≡ stops.Refused (refusals.File at fault) }
{
    Stop::Refused(Refusal::File {
        at: at as u64,
        fault,
    })
}

/// Why bytes are no code file.
fn of_file(fault: ReadFault) -> Stop
    ensures { result ≡ stop_of (report_of_file fault) }
{
    match fault {
        ReadFault::BadMagic => Stop::Refused(Refusal::BadMagic),
        ReadFault::BadVersion => Stop::Refused(Refusal::BadVersion),
        ReadFault::Truncated { at } => at_byte(at, FileFault::Truncated),
        ReadFault::BadField { at } => at_byte(at, FileFault::BadField),
        ReadFault::Trailing { at } => at_byte(at, FileFault::Trailing),
        ReadFault::OutOfMemory => Stop::OutOfMemory,
    }
}

fn at_instruction(block: u32, at: u32, fault: InstructionFault) -> Stop
    ensures { result ≡ stops.Refused (refusals.Code block at fault) }
{
    Stop::Refused(Refusal::Code { block, at, fault })
}

/// Which rule code breaks, and where.
fn of_code(fault: CodeFault) -> Stop
    ensures { result ≡ stop_of (report_of_code fault) }
{
    match fault {
        CodeFault::BadJump { block, at } => at_instruction(block, at, InstructionFault::BadJump),
        CodeFault::BadOperand { block, at } => {
            at_instruction(block, at, InstructionFault::BadOperand)
        }
        CodeFault::StackShape { block, at } => {
            at_instruction(block, at, InstructionFault::StackShape)
        }
        CodeFault::WrongKind { block, at } => {
            at_instruction(block, at, InstructionFault::WrongKind)
        }
        CodeFault::BadLocal { block, at } => at_instruction(block, at, InstructionFault::BadLocal),
        CodeFault::FallsOff { block, at } => at_instruction(block, at, InstructionFault::FallsOff),
        CodeFault::LimitOf { block, at } => at_instruction(block, at, InstructionFault::OverLimit),
        CodeFault::OutOfMemory => Stop::OutOfMemory,
    }
}

/// The code of which the bytes are the file.
fn read_file(alloc: Global, bytes: &[u8]) -> Result<Code, Stop>
    ensures { Meets (λ c. c) result (ReadsFile bytes.now) }
{
    file_laws();
    match read_code(alloc, bytes) {
        Ok(code) => Ok(code),
        Err(fault) => Err(of_file(fault)),
    }
}

/// The code, if it keeps all rules.
fn verified(alloc: Global, code: Code) -> Result<Verified, Stop>
    ensures { Meets (λ v. v.code) result (KeepsCodeRules code) }
{
    match verify(alloc, code) {
        Ok(verified) => Ok(verified),
        Err(fault) => Err(of_code(fault)),
    }
}

/// The code of which the bytes are the file, if it keeps all rules.
pub fn checked_code(alloc: Global, bytes: &[u8]) -> Result<Verified, Stop>
    ensures { Meets (λ v. v.code) result (ChecksCode bytes.now) }
{
    let code = read_file(alloc, bytes)?;
    verified(alloc, code)
}
