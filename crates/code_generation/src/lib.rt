//! The code of a program, as a function of its tree: worked programs, and what holds of the code of
//! every tree.
//!
//! Each law is an empty function.
#![tactic(auto)]

ghost use Rattle.std.specs.Prelude.{◌≡◌};
ghost use Rattle.revision_calculus.specs.Examples as x;
ghost use Rattle.code_generation.specs.Blocks.{BlocksAreCounted, BlocksAreWell};
ghost use Rattle.code_generation.specs.Generated.{code_of};
ghost use Rattle.code_generation.specs.Laws.{ExpressionSizes, StatementSizes};
ghost use Rattle.code_generation.specs.Laws.{LocalsAreCounted, LayoutsAreCounted, JumpsStayInside};
ghost use Rattle.code_generation.specs.Named.{FunsStand, MergesStand, ProcsStand, VariablesLie};
ghost use Rattle.code_generation.specs.Rows as w;

/// Worked programs and their code, which `specs/Rows.antt` has with the texts of the programs.
pub fn worked_code()
    ensures prints_seven { code_of x.prints_seven ≡ w.prints_seven_code }
    ensures has_an_array { code_of w.has_an_array ≡ w.has_an_array_code }
    ensures all_forms { code_of w.all_forms ≡ w.all_forms_code }
{}

/// Code has as many instructions as its size says.
pub fn size_laws()
    ensures expressions { ExpressionSizes }
    ensures statements { StatementSizes }
{}

/// So many locals and layouts come of statements as are counted where their numbers are given.
pub fn table_laws()
    ensures locals { LocalsAreCounted }
    ensures layouts { LayoutsAreCounted }
{}

/// A jump leads to a place of its own block, and backwards only to a Charge of a procedure or of
/// `main`.
pub fn jump_law()
    ensures { JumpsStayInside }
{}

/// A number that stands for a name is that of the block of the first fun or procedure of the name,
/// of the block of a merge, or of the first variable, which lies where the program has it.
pub fn number_laws()
    ensures funs { FunsStand }
    ensures procs { ProcsStand }
    ensures merges { MergesStand }
    ensures variables { VariablesLie }
{}

/// The table of blocks keeps the verifier's rules, and has as many funs and merges together, and as
/// many procedures, as the program.
pub fn block_rules()
    ensures well { BlocksAreWell }
    ensures counted { BlocksAreCounted }
{}
