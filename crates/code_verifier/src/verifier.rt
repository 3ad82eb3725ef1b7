//! The verifier.

ghost use Rattle.std.specs.Prelude.{◌≡◌, ◌<◌, ◌^◌, [], length, None, IfOk, OnOk, IfErr};
ghost use Rattle.code_rules.specs.Pass.{blocks_fault};
ghost use Rattle.code_rules.specs.Verdict as verdict;
ghost use Rattle.code_rules.specs.Verdict.{first_fault};
ghost use Rattle.code_verifier.specs.Verdicts.{AllSmall, IsPlace, IsRefusal, KeepsRules, fault_of};

use crate::fault::CodeFault;
use crate::pass::{Scope, check_block};
use crate::verified::Verified;
use code_rules::{Fault, Rule, is_small, names_well};
use rev_code::Code;
use std::alloc::{AllocError, Global};

/// The code, if it keeps all rules; otherwise the first instruction that breaks one, with the first
/// such rule. Faults of tables come before all others, and stand at instruction 0 of block 0.
/// `OutOfMemory` says nothing of the code.
pub fn verify(alloc: Global, code: Code) -> Result<Verified, CodeFault>
    ensures code { IfOk result (λ v. v.code ≡ code) }
    ensures sound { OnOk result (KeepsRules code) }
    ensures fault { IfErr result (IsRefusal code) }
{
    match find_fault(alloc, &code) {
        Err(_) => Err(CodeFault::OutOfMemory),
        Ok(Some(fault)) => Err(code_fault(fault)),
        Ok(None) => Ok(Verified { code }),
    }
}

/// A fault of the tables.
fn of_tables(rule: Rule) -> Fault
    ensures { result ≡ verdict.of_tables rule }
{
    Fault {
        block: 0,
        at: 0,
        rule,
    }
}

fn code_fault(fault: Fault) -> CodeFault
    requires block { fault.block < 2 ^ 32 }
    requires at { fault.at < 2 ^ 32 }
    ensures { result ≡ fault_of fault }
{
    let block = fault.block as u32;
    let at = fault.at as u32;
    match fault.rule {
        Rule::BadJump => CodeFault::BadJump { block, at },
        Rule::BadOperand => CodeFault::BadOperand { block, at },
        Rule::StackShape => CodeFault::StackShape { block, at },
        Rule::WrongKind => CodeFault::WrongKind { block, at },
        Rule::BadLocal => CodeFault::BadLocal { block, at },
        Rule::FallsOff => CodeFault::FallsOff { block, at },
        Rule::LimitOf => CodeFault::LimitOf { block, at },
    }
}

/// The first fault of the code.
fn find_fault(alloc: Global, code: &Code) -> Result<Option<Fault>, AllocError>
    ensures fault { IfOk result (λ f. f ≡ first_fault code.now) }
    ensures place { IfOk result IsPlace }
{
    if !names_well(code) {
        return Ok(Some(of_tables(Rule::BadOperand)));
    }
    if !is_small(code) {
        return Ok(Some(of_tables(Rule::LimitOf)));
    }
    check_blocks(alloc, code)
}

/// The first fault of the instructions.
fn check_blocks(alloc: Global, code: &Code) -> Result<Option<Fault>, AllocError>
    requires small { AllSmall code.now.blocks }
    requires few { length code.now.blocks < 2 ^ 32 }
    ensures fault { IfOk result (λ f. f ≡ blocks_fault code.now [] 0 code.now.blocks) }
    ensures place { IfOk result IsPlace }
{
    let blocks = code.blocks.as_slice();
    let mut costs = Vec::new(alloc);
    for number in 0..blocks.len() {
        let scope = Scope {
            code,
            costs: costs.as_slice(),
            number,
            block: &blocks[number],
        };
        match check_block(alloc, &scope)? {
            Err((at, rule)) => {
                return Ok(Some(Fault {
                    block: number,
                    at,
                    rule,
                }));
            }
            Ok(cost) => costs.push(cost)?,
        }
    }
    Ok(None)
}
