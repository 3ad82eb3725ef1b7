//! Worked programs, each of which is named in `specs/Examples.antt` with its text: what every
//! complete run of it reports, whatever the order of its steps, or leaves.

ghost use Rattle.std.specs.Prelude.{◌≡◌, [], ◌∷◌, Some, false, negsuc, pos, true};
ghost use Rattle.rev_num.specs.declared.value.Value.TheVariants as v;
ghost use Rattle.revision_calculus.specs.Complete.{Reports, Tells, runs_to};
ghost use Rattle.revision_calculus.specs.State.{forked, joined, with_write};
ghost use Rattle.revision_calculus.specs.Kinded.{IsAccepted};
ghost use Rattle.revision_calculus.specs.Examples as x;
ghost use Rattle.revision_calculus.specs.Examples.{
  given,
  joins_twice,
  prints,
  sharing,
  traps,
  usual,
  usual_fuel,
  JoinsTwice,
  Prints,
  Traps,
};

/// Joins of revisions that are done: which value a location takes, in which order texts stand, and
/// which handles can be joined.
pub fn join_programs()
    ensures joinee_wins { Prints x.joinee_wins "1\n" }
    ensures no_write { Prints x.no_write "2\n" }
    ensures write_of_old_value { Prints x.write_of_old_value "0\n" }
    ensures both_count { Prints x.both_count "1 1\n" }
    ensures sums { Prints x.sums "16\n" }
    ensures handle_travels { Reports (usual x.handle_travels) usual_fuel true
        (prints "9\nhb = 0.0\nn = 9\n") }
    ensures sibling_joins { Prints x.sibling_joins "5\n" }
    ensures texts_in_order { Prints x.texts_in_order "one\nchild\ntwo\n" }
{}

/// A second join of one revision, also by another revision, and also where that one is never joined
/// itself.
pub fn second_joins()
    ensures double_join { JoinsTwice x.double_join }
    ensures two_joiners { JoinsTwice x.two_joiners }
    ensures first_joiner_first { runs_to (usual x.two_joiners) usual_fuel x.first_joiner_first
        ≡ Some joins_twice }
    ensures second_joiner_first { runs_to (usual x.two_joiners) usual_fuel x.second_joiner_first
        ≡ Some joins_twice }
    ensures tries_twice { JoinsTwice x.tries_twice }
{}

/// Traps of `main`, of a child that is joined, and of a child that nobody joins.
pub fn trap_programs()
    ensures join_of_none { Traps x.join_of_none "1\n"
        "trap: join of none at line 3 in revision main" }
    ensures joined { Traps x.joins_a_trapped_child "" "trap: zero divisor at line 3 in revision 0" }
    ensures not_joined { Prints x.leaves_a_trapped_child "" }
    ensures spent_child { Reports (sharing 5 x.spins) usual_fuel false (prints "1\n") }
    ensures fuel_suffices { Reports (usual x.prints_seven) 1 false (prints "7\n") }
    ensures fuel_spent { Reports (usual x.prints_twice) 1 false
        (traps "7\n" "trap: fuel spent at line 2 in revision main") }
    ensures least_fault { Reports (usual x.merges_fault) usual_fuel true
        (traps "a[0] = 1\na[1] = 1\n" "trap: merge of a[0]: overflow at line 7 in revision main") }
    ensures assertion { Traps x.asserts_what_is_false "" "trap: assert at line 1 in revision main" }
{}

/// Expressions: the first fault from the left, and what is evaluated only where it is needed.
pub fn expression_programs()
    ensures left_first { Traps x.faults_from_the_left ""
        "trap: zero divisor at line 1 in revision main" }
    ensures picks { Prints x.picks "5 1 true\n" }
    ensures short { Prints x.decides_from_the_left "false true false true\n" }
    ensures needs_the_right { Traps x.needs_the_right ""
        "trap: zero divisor at line 1 in revision main" }
{}

/// An `else`, values that procedures return, and indexes outside of an array, which are tested
/// before the value of an assignment.
pub fn statement_programs()
    ensures goes_to_the_else { Prints x.goes_to_the_else "2\n3\n" }
    ensures returns { Prints x.returns "5\n1 -1\n" }
    ensures reads_past_the_end { Traps x.reads_past_the_end "5\n"
        "trap: index at line 4 in revision main" }
    ensures writes_past_the_end { Traps x.writes_past_the_end "5\n"
        "trap: index at line 4 in revision main" }
    ensures writes_before_the_start { Traps x.writes_before_the_start "5\n"
        "trap: index at line 4 in revision main" }
{}

/// Division, and the numbers on the command line.
pub fn number_programs()
    ensures least_by_minus_one { Traps x.divides_the_least ""
        "trap: overflow at line 1 in revision main" }
    ensures toward_zero { Prints x.divides_toward_zero "-3 -1\n" }
    ensures two_inputs { Reports (given x.adds_inputs (pos 3 ∷ pos 4 ∷ [])) usual_fuel false
        (prints "7 2\n") }
    ensures negative_input { Reports (given x.prints_an_input (negsuc 3 ∷ [])) usual_fuel false
        (prints "-4\n") }
    ensures no_input { Traps x.prints_an_input "" "trap: index at line 1 in revision main" }
{}

/// A `tryjoin` of a trapped and of a done revision, of one whose merge faults, of none, and into a
/// variable that the joinee wrote.
pub fn try_programs()
    ensures tries { Prints x.tries "false 0\nchild\ntrue 3\n" }
    ensures tries_what_faults { Reports (usual x.tries_what_faults) usual_fuel true
        (traps "a[0] = 1\na[1] = 1\n" "trap: merge of a[0]: overflow at line 7 in revision main") }
    ensures tries_none { Traps x.tries_none "" "trap: join of none at line 1 in revision main" }
    ensures tries_into_what_was_written { Reports
        (usual x.tries_into_what_was_written) usual_fuel true
        (prints "true\ntrue\nok = true\n") }
{}

/// A revision can have 1,000 frames, and no more.
pub fn deep_calls()
    ensures frames_suffice { Prints (x.calls_deep 999) "1\n" }
    ensures call_depth { Traps (x.calls_deep 1000) ""
        "trap: call depth at line 1 in revision main" }
{}

/// How fuel is shared and given back, and what is listed and written: the program `sums` with fuel
/// 100 and share 10, and with fuel 9, where a fork gives half of what is left.
pub fn accounts()
    ensures child_fuel { Tells (sharing 10 x.sums) 100 (0 ∷ []) (λ l. l.fuel) 9 }
    ensures main_fuel { Tells (sharing 10 x.sums) 100 [] (λ l. l.fuel) 94 }
    ensures main_lists { Tells (sharing 10 x.sums) 100 [] (λ l. l.noted)
        (forked (0 ∷ []) 6 ∷ joined (0 ∷ []) 8 ∷ []) }
    ensures half_of_the_fuel { Tells (usual x.sums) 9 (0 ∷ []) (λ l. l.fuel) 2 }
    ensures and_the_rest { Tells (usual x.sums) 9 [] (λ l. l.fuel) 3 }
    ensures child_writes { Tells (sharing 10 x.sums) 100 (0 ∷ []) (λ l. l.locations)
        (with_write (v.Int (pos 5)) (v.Int (pos 6)) ∷ []) }
    ensures main_writes { Tells (sharing 10 x.sums) 100 [] (λ l. l.locations)
        (with_write (v.Int (pos 0)) (v.Int (pos 16)) ∷ []) }
{}

/// Programs that the laws on kinds speak of.
pub fn typed_programs()
    ensures handle_travels { IsAccepted x.handle_travels }
    ensures merges_fault { IsAccepted x.merges_fault }
    ensures tries { IsAccepted x.tries }
    ensures returns { IsAccepted x.returns }
    ensures picks { IsAccepted x.picks }
    ensures adds_inputs { IsAccepted x.adds_inputs }
{}
