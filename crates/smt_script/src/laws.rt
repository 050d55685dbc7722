//! Laws of the definitions that the contracts name. Nothing here does anything: each contract is a law.

pub mod commands;

ghost use Rattle.std.specs.Prelude.{◌≡◌, ◌+◌, ◌-◌, ℕ, List, [], ◌∷◌, ◌++◌, Bool, true, false, Ok, Some};
ghost use Rattle.std.specs.List.{list_any};
ghost use Rattle.smt_trees.specs.Sexp.{Sexp, Sexps, Nil};
ghost use Rattle.smt_theory.specs.Theories.{all_theories, theories_named};
ghost use Rattle.smt_theory.specs.declared.profile.Profile.{Profile};
ghost use Rattle.smt_theory.specs.declared.theories.Theories.{Theories};
ghost use Rattle.smt_terms.specs.declared.named_sort.NamedSort.{NamedSort};
ghost use Rattle.smt_terms.specs.Assertions.{asserted_in};
ghost use Rattle.smt_terms.specs.Definitions.{defined_in};
ghost use Rattle.smt_terms.specs.Declarations.{abbreviated_in, declared_in, sort_declared_in};
ghost use Rattle.smt_terms.specs.Signature.{Entry, names_of, sort_names_of};
ghost use Rattle.smt_terms.specs.WellSorted.{AreIntroduced};
ghost use Rattle.smt_script.specs.Command.{Command, SetGlobalDeclarations, SetLogic, SetPrintSuccess};
ghost use Rattle.smt_script.specs.Command.{DeclareConst, DeclareFun, DeclareSort};
ghost use Rattle.smt_script.specs.Command.{DefineFun, DefineSort, Assert, Push, Pop, Exit};
ghost use Rattle.smt_script.specs.Stack.{Assertion, HaveNoFlaw, NamesStand, Numbered, Stands};
ghost use Rattle.smt_script.specs.Stack.{global_in_force};
ghost use Rattle.smt_script.specs.StackView.{AreNamesAlike};
ghost use Rattle.smt_script.specs.Stack.{assertions_in_force, depth_in_force, flaw_of_effect, has_exited};
ghost use Rattle.smt_script.specs.Stack.{is_logic_set, is_reset, is_too_late, makes_late};
ghost use Rattle.smt_script.specs.Stack.{print_success_in_force, signature_in_force, theories_in_force};
ghost use Rattle.smt_script.specs.Standing.{AreAmong, AreBrought, AreSince, IsAmong, IsBrought, IsLast};
ghost use Rattle.smt_script.specs.Standing.{Never, abbreviations_of_command, assertions_of_command};
ghost use Rattle.smt_script.specs.Standing.{is_whole_reset, names_of_command, numbered, popped, pushed};
ghost use Rattle.smt_script.specs.Standing.{sets_global, sets_logic, sets_print_success, sets_theories};

use smt_terms::laws::{definitions_are_well_sorted, labels_are_introduced};

/// After commands without a fault, the names in force were introduced one after another (SMT-LIB 2.6,
/// sections 3.6.5 and 4.2.3). Each differs from the earlier ones and is no operator's, and each definition
/// and label is well sorted over the earlier ones.
pub fn names_in_force_are_introduced()
    ensures { (profile : Profile) (commands : List Numbered) → HaveNoFlaw profile [] commands
        → AreIntroduced (signature_in_force profile commands).theories None []
        (signature_in_force profile commands).entries }
{
    definitions_are_well_sorted();
    labels_are_introduced();
}

/// A declaration or a definition introduces its one name, an assertion its labels, and `define-sort` and `declare-sort`
/// their one name of a sort (SMT-LIB 2.6, sections 4.2.3 and 4.2.4).
pub fn commands_bring_names()
    ensures constants { (profile : Profile) (earlier : List Numbered) (n : ℕ) (x : List ℕ) (sort : Sexp)
        → (e : Entry)
        → declared_in (signature_in_force profile earlier) n x Nil sort ≡ Ok e
        → names_of_command profile earlier (numbered n (DeclareConst x sort)) ≡ e ∷ [] }
    ensures functions { (profile : Profile) (earlier : List Numbered) (n : ℕ) (x : List ℕ) (ps : Sexps)
        → (sort : Sexp) (e : Entry)
        → declared_in (signature_in_force profile earlier) n x ps sort ≡ Ok e
        → names_of_command profile earlier (numbered n (DeclareFun x ps sort)) ≡ e ∷ [] }
    ensures definitions { (profile : Profile) (earlier : List Numbered) (n : ℕ) (x : List ℕ)
        → (ps : List (List ℕ × Sexp)) (sort body : Sexp) (e : Entry)
        → defined_in (signature_in_force profile earlier) x ps sort body ≡ Ok e
        → names_of_command profile earlier (numbered n (DefineFun x ps sort body)) ≡ e ∷ [] }
    ensures labels { (profile : Profile) (earlier : List Numbered) (n : ℕ) (term : Sexp) (es : List Entry)
        → asserted_in (names_of (signature_in_force profile earlier)) term ≡ Ok es
        → names_of_command profile earlier (numbered n (Assert term)) ≡ es }
    ensures abbreviations { (profile : Profile) (earlier : List Numbered) (n : ℕ) (x : List ℕ) (tree : Sexp)
        → (named : NamedSort)
        → abbreviated_in (sort_names_of (signature_in_force profile earlier)) x tree ≡ Ok named
        → abbreviations_of_command profile earlier (numbered n (DefineSort x tree)) ≡ (x, named) ∷ [] }
    ensures sorts { (profile : Profile) (earlier : List Numbered) (n : ℕ) (x : List ℕ) (named : NamedSort)
        → sort_declared_in (sort_names_of (signature_in_force profile earlier)) n x ≡ Ok named
        → abbreviations_of_command profile earlier (numbered n (DeclareSort x)) ≡ (x, named) ∷ [] }
{}

/// The names in force are, in order, those of the commands that no `reset` followed and, where declarations
/// were not global, neither a `reset-assertions` nor fewer levels (SMT-LIB 2.6, sections 4.1.4 and 4.1.7).
pub fn names_in_force_stand()
    ensures stands { (profile : Profile) (commands earlier : List Numbered) (c : Numbered)
        → NamesStand commands earlier c
        → AreAmong (names_of_command profile earlier c) (signature_in_force profile commands).entries }
    ensures found { (profile : Profile) (commands : List Numbered) (e : Entry)
        → IsAmong e (signature_in_force profile commands).entries
        → IsBrought NamesStand (names_of_command profile) commands e }
    ensures ordered { (profile : Profile) (commands : List Numbered)
        → AreBrought NamesStand (names_of_command profile) commands [] commands
        (signature_in_force profile commands).entries }
{}

/// The abbreviations in force are, in order, those of the commands that `names_in_force_stand` describes.
pub fn abbreviations_in_force_stand()
    ensures stands { (profile : Profile) (commands earlier : List Numbered) (c : Numbered)
        → NamesStand commands earlier c
        → AreAmong (abbreviations_of_command profile earlier c) (signature_in_force profile commands).abbreviations }
    ensures found { (profile : Profile) (commands : List Numbered) (a : List ℕ × NamedSort)
        → IsAmong a (signature_in_force profile commands).abbreviations
        → IsBrought NamesStand (abbreviations_of_command profile) commands a }
    ensures ordered { (profile : Profile) (commands : List Numbered)
        → AreBrought NamesStand (abbreviations_of_command profile) commands [] commands
        (signature_in_force profile commands).abbreviations }
{}

/// The assertions in force are those after which no reset came and the levels were never fewer, whether
/// declarations are global or not (SMT-LIB 2.6, section 4.1.4).
pub fn assertions_in_force_stand()
    ensures stands { (profile : Profile) (commands earlier : List Numbered) (c : Numbered) (term : Sexp)
        → Stands commands earlier c → c.command ≡ Assert term
        → IsAmong (record { command = c.number; term = term }) (assertions_in_force profile commands) }
    ensures found { (profile : Profile) (commands : List Numbered) (first last : List Assertion) (a : Assertion)
        → assertions_in_force profile commands ≡ first ++ a ∷ last
        → (earlier : List Numbered) × (c : Numbered)
        × Stands commands earlier c × (c.command ≡ Assert a.term) × (c.number ≡ a.command) }
    ensures ordered { (profile : Profile) (commands : List Numbered)
        → AreBrought Stands assertions_of_command commands [] commands (assertions_in_force profile commands) }
{}

/// The theories in force are those of the last logic that was set since the last `reset`, or all theories
/// where none was set (SMT-LIB 2.6, section 4.2.1).
pub fn theories_in_force_are_the_last()
    ensures set { (profile : Profile) (commands since : List Numbered) (name : List ℕ) (theories : Theories)
        → AreSince is_whole_reset commands since → IsLast (sets_theories profile) since (SetLogic name)
        → theories_named profile name ≡ Some theories → theories_in_force profile commands ≡ theories }
    ensures start { (profile : Profile) (commands since : List Numbered) → AreSince is_whole_reset commands since
        → Never (sets_theories profile) since → theories_in_force profile commands ≡ all_theories profile }
    ensures signature { (profile : Profile) (commands : List Numbered)
        → (signature_in_force profile commands).theories ≡ theories_in_force profile commands }
{}

/// The last command since the last `reset` that sets whether `success` is printed decides it; without one, it
/// is as at the start (SMT-LIB 2.6, sections 4.1.7 and 4.2.1).
pub fn print_success_is_the_last()
    ensures set { (start on : Bool) (commands since : List Numbered) → AreSince is_whole_reset commands since
        → IsLast sets_print_success since (SetPrintSuccess on) → print_success_in_force start commands ≡ on }
    ensures start { (start : Bool) (commands since : List Numbered) → AreSince is_whole_reset commands since
        → Never sets_print_success since → print_success_in_force start commands ≡ start }
{}

/// The last command since the last `reset` that sets whether declarations are global decides it; without one,
/// they are not (SMT-LIB 2.6, sections 4.1.7 and 4.2.1).
pub fn global_declarations_are_the_last()
    ensures set { (on : Bool) (commands since : List Numbered) → AreSince is_whole_reset commands since
        → IsLast sets_global since (SetGlobalDeclarations on) → global_in_force commands ≡ on }
    ensures start { (commands since : List Numbered) → AreSince is_whole_reset commands since
        → Never sets_global since → global_in_force commands ≡ false }
{}

/// Global names and abbreviations are never in force together with others (SMT-LIB 2.6, section 4.1.7). After
/// commands without a fault, each was introduced while declarations were as global as they are at the end.
pub fn declarations_are_alike()
    ensures { (profile : Profile) (commands : List Numbered) → HaveNoFlaw profile [] commands
        → AreNamesAlike profile commands }
{}

/// A logic is set, and it is too late to set one, exactly where a command since the last `reset` made it so.
/// Until it is too late, nothing is in force (SMT-LIB 2.6, sections 4.1.1 and 4.2.1).
pub fn logics_are_set_first()
    ensures set { (commands since : List Numbered) → AreSince is_whole_reset commands since
        → is_logic_set commands ≡ list_any (λ c. sets_logic c.command) since }
    ensures late { (commands since : List Numbered) → AreSince is_whole_reset commands since
        → is_too_late commands ≡ list_any (λ c. makes_late c.command) since }
    ensures names { (profile : Profile) (commands : List Numbered) → is_too_late commands ≡ false
        → (signature_in_force profile commands).entries ≡ [] }
    ensures abbreviations { (profile : Profile) (commands : List Numbered) → is_too_late commands ≡ false
        → (signature_in_force profile commands).abbreviations ≡ [] }
    ensures assertions { (profile : Profile) (commands : List Numbered) → is_too_late commands ≡ false
        → assertions_in_force profile commands ≡ [] }
    ensures levels { (commands : List Numbered) → is_too_late commands ≡ false
        → depth_in_force commands ≡ 0 }
{}

/// There is no level at the start and after a reset; `push` adds levels, and `pop` removes them. So the depth
/// is the number of levels added since the last reset, less those removed (SMT-LIB 2.6, sections 4.1.4 and
/// 4.2.2).
pub fn depth_counts_levels()
    ensures start { depth_in_force [] ≡ 0 }
    ensures push { (commands : List Numbered) (n levels : ℕ)
        → depth_in_force (commands ++ numbered n (Push levels) ∷ []) ≡ depth_in_force commands + levels }
    ensures pop { (commands : List Numbered) (n levels : ℕ)
        → depth_in_force (commands ++ numbered n (Pop levels) ∷ []) ≡ depth_in_force commands - levels }
    ensures reset { (commands : List Numbered) (c : Numbered) → is_reset c.command ≡ true
        → depth_in_force (commands ++ c ∷ []) ≡ 0 }
    ensures sum { (profile : Profile) (commands since : List Numbered) → HaveNoFlaw profile [] commands
        → AreSince is_reset commands since
        → depth_in_force commands + popped since ≡ pushed since }
{}

/// Commands have exited exactly where an `exit` is among them (SMT-LIB 2.6, section 4.2.1).
pub fn exited_behind_an_exit()
    ensures exited { (commands : List Numbered) (n : ℕ)
        → IsAmong (numbered n Exit) commands
        → has_exited commands ≡ true }
    ensures found { (commands : List Numbered) → has_exited commands ≡ true
        → (n : ℕ) × IsAmong (numbered n Exit) commands }
{}
