//! The rules on instructions in words, and that the pass finds the first instruction that breaks
//! one.
#![tactic(auto)]

ghost use Rattle.code_ways.specs.First.{PassAccepts, PassFindsFirst};
ghost use Rattle.code_ways.specs.Certified.{CertifiedIsAccepted};
ghost use Rattle.code_ways.specs.OfCode.{FirstFaultIsFirst, NoFaultIsFine};

/// The pass over a block that has instructions refuses it exactly at its first fault, in words, and
/// accepts it exactly where each instruction keeps all rules.
pub fn pass_law()
    ensures finds { PassFindsFirst }
    ensures accepts { PassAccepts }
{}

/// The first fault of code is that of its tables, and otherwise that of the first block that breaks
/// a rule, in words. Code has none exactly where its tables and all its blocks keep the rules.
pub fn fault_law()
    ensures first { FirstFaultIsFirst }
    ensures none { NoFaultIsFine }
{}

/// A block with a certificate is accepted, where what stands behind a Jump or Return begins anew
/// and a fun or merge is within its limits.
pub fn certified_law()
    ensures { CertifiedIsAccepted }
{}
