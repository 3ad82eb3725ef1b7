//! `main` before its first leg.

ghost use Rattle.std.specs.Prelude.{◌≡◌, ◌++◌, ℕ, true, [], IfErr, IfOk, None, Some};
ghost use Rattle.std.specs.Prelude.{replicate, slice_get};
ghost use Rattle.rev_code.specs.declared.code.CodeBlock.{CodeBlock};
ghost use Rattle.rev_code.specs.Events as events;
ghost use Rattle.rev_code.specs.State.{State};
ghost use Rattle.rev_code.specs.Variables.{start_locations};
ghost use Rattle.code_rules.specs.Tables.{is_main};
ghost use Rattle.code_rules.specs.Verdict.{first_fault};
ghost use Rattle.block_run.specs.Area.{count};
ghost use Rattle.code_machine.specs.Machines.{IsMain};
ghost use Rattle.rev_vm.specs.Opening.{AreShort, StartsWith, words_at_start};
ghost use Rattle.rev_vm.specs.Starts.{run_under};
ghost use Rattle.rev_vm.specs.Values.{StandsFor, runner_delta, runner_group};

use crate::runner::Runner;
use leg_run::CodeSetting;
use rev_code::Code;
use std::alloc::{AllocError, Global};
use version_map::{Snapshot, Whole};

/// Appends so many copies of a word.
fn append_copies(words: &mut Vec<u64>, word: u64, copies: u32) -> Result<(), AllocError>
    requires { AreShort words.old.items }
    ensures words { IfOk result (λ _. words.new.items ≡ words.old.items ++ replicate copies word) }
    ensures short { IfOk result (λ _. AreShort words.new.items) }
{
    for done in 0..copies {
        words.push(word)?;
    }
    Ok(())
}

/// The words with which the locations of all shared variables start.
pub fn start_words(alloc: Global, code: &Code) -> Result<Vec<u64>, AllocError>
    ensures words { IfOk result (λ ws. ws.items ≡ words_at_start code.now.vars) }
    ensures short { IfOk result (λ ws. AreShort ws.items) }
{
    let vars = code.vars.as_slice();
    let mut words = Vec::new(alloc);
    for at in 0..vars.len() {
        append_copies(&mut words, vars[at].start, vars[at].cells)?;
    }
    Ok(words)
}

/// The snapshot of all words with which the shared variables start.
pub fn start_whole(alloc: Global, code: &Code) -> Result<Whole, AllocError>
    ensures size { IfOk result (λ w. ⟦<Whole as Snapshot>⟧.size w ≡ count code.now.vars) }
    ensures base { IfOk result (λ w. StartsWith code.now.vars (⟦<Whole as Snapshot>⟧.base w)) }
{
    let words = start_words(alloc, code)?;
    Ok(Whole::new(words))
}

/// The number of the main block, which is the last.
fn main_of(code: &Code) -> u16
    requires { first_fault code.now ≡ None }
    ensures is { (b : CodeBlock) × (slice_get code.now.blocks result ≡ Some b)
        × (is_main b.class ≡ true) }
    ensures one { (n : ℕ) (b : CodeBlock) → slice_get code.now.blocks n ≡ Some b
        → is_main b.class ≡ true → n ≡ result }
{
    (code.blocks.as_slice().len() - 1) as u16
}

/// `main` before its first leg, over a snapshot with the words with which the shared variables
/// start. The error is want of memory, and hands the snapshot back.
pub fn start_main<P: Snapshot>(
    alloc: Global,
    setting: &CodeSetting,
    snapshot: P,
    fuel: u64,
) -> Result<Runner<P>, P>
    requires size { P.size snapshot ≡ count setting.now.code.vars }
    requires base { StartsWith setting.now.code.vars (P.base snapshot) }
    ensures state { (n : ℕ) (m : IsMain (run_under setting.now) n)
        → IfOk result (λ r. StandsFor (run_under setting.now) r
        (events.start n m.body [] (start_locations setting.now.code.vars) fuel)) }
    ensures stands { IfOk result (λ r. (c : State ℕ) × StandsFor (run_under setting.now) r c) }
    ensures group { IfOk result (λ r. runner_group r ≡ P.group snapshot) }
    ensures tables { IfOk result (λ r. runner_delta r ≡ None) }
    ensures err { IfErr result (λ s. s ≡ snapshot) }
{
    let main = main_of(setting.code());
    Runner::start(alloc, setting, main, &[], snapshot, fuel)
}
