//! Laws of the definitions that the contracts name. Nothing here does anything: each contract is a law.

pub mod elements;
pub mod terms;

ghost use Rattle.std.specs.Prelude.{◌≡◌, ◌≤◌, ◌<◌, ◌↔◌, ℕ, ◌+◌, ◌-◌, ◌*◌, ◌^◌, List, [], ◌∷◌, Ok, Err, Option, None, length};
ghost use Rattle.std.specs.Prelude.{All, Some, map, slice_get, true};
ghost use Rattle.smt_trees.specs.Sexp.{Cons, Sexp, Sexps, append, weight};
ghost use Rattle.smt_trees.specs.View.{sexp_of};
ghost use Rattle.smt_theory.specs.Sort.{Sort};
ghost use Rattle.smt_theory.specs.declared.theories.Theories.{Theories};
ghost use Rattle.smt_values.specs.Element.{Abstract};
ghost use Rattle.smt_arrays.specs.Element.{Agrees, Element, IsOfSort, Plain};
ghost use Rattle.smt_values.specs.ElementNumbers.{numbered_in};
ghost use Rattle.smt_values.specs.Operations.{DivisionByZero};
ghost use Rattle.smt_forms.specs.Variables.{is_among};
ghost use Rattle.smt_machine.specs.Costs.{cost, greatest_of};
ghost use Rattle.smt_machine.specs.Given.{given};
ghost use Rattle.smt_machine.specs.Least.{least};
ghost use Rattle.smt_machine.specs.Nodes.{Frame};
ghost use Rattle.smt_values.specs.Element.{Naming};
ghost use Rattle.smt_names.specs.Places.{place_of};
ghost use Rattle.smt_nodes.specs.Node as node;
ghost use Rattle.smt_nodes.specs.Node.{Row};
ghost use Rattle.smt_terms.specs.Checking.{sort_in};
ghost use Rattle.smt_terms.specs.Denotes.{Denotes, Table};
ghost use Rattle.smt_terms.specs.Items.{items_before};
ghost use Rattle.smt_terms.specs.Library.{IsTerm, StandsFor};
ghost use Rattle.smt_terms.specs.Repeated.{IsRepeated, IsTold};
ghost use Rattle.smt_terms.specs.Signature.{AreDistinct, Entry, Signature, defined_among, names_of, unlabelled};
ghost use Rattle.smt_terms.specs.TermsOf.{AreTermsOf};
ghost use Rattle.smt_terms.specs.WellSorted.{AreIntroduced, AreWellSorted};
ghost use Rattle.smt_eval.specs.Agreement.{AgreesWith, FitsScope};
ghost use Rattle.smt_faults.specs.declared.term_flaw.TermFlaw.{TermFlaw};
ghost use Rattle.smt_eval.specs.CompleteModel.{IsModelOf};
ghost use Rattle.smt_eval.specs.Cost.{BodyCosts, cost_of, cost_over, costs_after, no_costs};
ghost use Rattle.smt_eval.specs.CostExamples.{annotated_twice, doubling_name, doublings, sum_is_three, two_for_x};
ghost use Rattle.smt_eval.specs.Internal.DefinitionValues.{AllDefined};
ghost use Rattle.smt_eval.specs.Interpretation.{IsInterpretation};
ghost use Rattle.smt_eval.specs.Least.{least_of};
ghost use Rattle.smt_eval.specs.Known.{by_name, known_in, known_of, known_over_by};
ghost use Rattle.smt_eval.specs.Meaning.{value_over};
ghost use Rattle.smt_eval.specs.Model.{AreDefined, AreItems, HasFirstFlaw, IsFirstLacking, items_of};
ghost use Rattle.smt_eval.specs.Model.{model_in};
ghost use Rattle.smt_eval.specs.NodeValues.{GivesBodies, arounds_over, nodes_over};
ghost use Rattle.smt_eval.specs.Numbering.{in_numbers};
ghost use Rattle.smt_eval.specs.NamedElements.{DefinitionsNameOnly, IsAmong, IsOfName, KeepsName, NamesOnly};
ghost use Rattle.smt_eval.specs.Renaming.{DefinitionsNameNone, IsInjective, NamesNone, Renaming, parameters_in};
ghost use Rattle.smt_eval.specs.Renaming.{renamed, renamed_variables};
ghost use Rattle.smt_eval.specs.Structure.{IsStructure, structure_of};
ghost use Rattle.smt_eval.specs.declared.model_fault.ModelFlaw.TheVariants.{Item, Lacks};

use smt_arrays::laws::{known_results_are_true, results_are_of_their_sorts};
use smt_machine::laws::{nodes_have_their_costs, nodes_have_their_least, nodes_have_their_values};
use smt_names::laws::places_are_of_one_name;
use smt_terms::laws::elements::items_that_tell_of_elements_are_set_aside;
use smt_terms::laws::{items_are_well_sorted, repeated_items_are_set_aside, sorts_are_kept};
use smt_theory::laws::{ranks_are_the_table, sorts_are_compared};
use smt_values::laws::literals::{decimals_are_reals, decimals_are_their_digits};

/// What is known of a term is its value in the structure that the definitions give (SMT-LIB 2.6, section
/// 5.3). This holds whatever division by zero gives, and for all values of the variables that agree with what
/// is known of them.
pub fn known_values_are_true()
    ensures { (z : DivisionByZero) (definitions : Signature) (known : List (List ℕ × Option Element))
        (r : List (List ℕ × Element)) (term : Sexp)
        → AgreesWith known r → Agrees (known_of (known_in definitions) known term)
        (value_over z definitions r term) }
{
    known_results_are_true();
    decimals_are_their_digits();
}

/// A well-sorted term has a value of its sort, over definitions that are well sorted and have different
/// names, and variables with values of their sorts.
pub fn well_sorted_terms_have_values()
    ensures { (z : DivisionByZero) (definitions : Signature) (scope : List (List ℕ × Sort))
        (r : List (List ℕ × Element)) (term : Sexp) (sort : Sort)
        → AreWellSorted definitions.theories definitions.elements [] definitions.entries
        → AreDistinct definitions.entries
        → FitsScope scope r
        → sort_in (unlabelled (names_of definitions)) scope term ≡ Ok sort
        → IsOfSort sort (value_over z definitions r term) }
{
    ranks_are_the_table();
    results_are_of_their_sorts();
    decimals_are_reals();
    sorts_are_compared();
}

/// Of the elements of declared sorts nothing matters but which are the same: where a term and the definitions name
/// no element, other names for the elements that the variables have, different for different elements, give the
/// value by its other name.
pub fn elements_matter_by_their_names_alone()
    ensures { (z : DivisionByZero) (definitions : Signature) (g : Renaming) (r : List (List ℕ × Element))
        (term : Sexp) → IsInjective g → DefinitionsNameNone definitions
        → NamesNone (parameters_in definitions) (map (λ v. v.0) r) term
        → value_over z definitions (renamed_variables g r) term
        ≡ renamed g (value_over z definitions r term) }
{}

/// Other names for elements change no value where those that the definitions and the term name keep theirs: different
/// names for different elements, and the same name for each that is named, give the value by its other name.
pub fn elements_that_are_not_named_may_have_other_names()
    ensures { (z : DivisionByZero) (definitions : Signature) (g : Renaming) (r : List (List ℕ × Element))
        (term : Sexp) → IsInjective g → DefinitionsNameOnly (KeepsName g) definitions
        → NamesOnly (KeepsName g) (parameters_in definitions) (map (λ v. v.0) r) term
        → value_over z definitions (renamed_variables g r) term
        ≡ renamed g (value_over z definitions r term) }
{}

/// The value of a term is an element that the definitions or the term name, or that a variable has, where it is an
/// element of a declared sort.
pub fn values_are_elements_that_are_named()
    ensures { (z : DivisionByZero) (definitions : Signature) (r : List (List ℕ × Element)) (term : Sexp)
        (names : List (List ℕ)) (x : List ℕ) → DefinitionsNameOnly (IsAmong names) definitions
        → NamesOnly (IsAmong names) (parameters_in definitions) (map (λ v. v.0) r) term
        → All (λ v. IsOfName (IsAmong names) v.1) r
        → value_over z definitions r term ≡ Plain (Abstract x) → is_among names x ≡ true }
{}

/// The definitions of a model are over the script's theories, are well sorted and have different names. Each
/// declared name has one, of the rank that it was declared with (SMT-LIB 2.6, section 4.2.6).
pub fn models_are_complete()
    ensures { (script : Signature) (parts : Sexps) (definitions : Signature)
        → model_in script parts ≡ Ok definitions → IsModelOf script parts definitions }
{
    items_are_well_sorted();
}

/// A model that is read gives a script without repeated names a structure without repeated names. The
/// definitions of the model have different names, and none has the name of a definition of the script.
pub fn structures_are_distinct()
    ensures { (script : Signature) (parts : Sexps) (definitions : Signature)
        → model_in script parts ≡ Ok definitions → AreDistinct script.entries
        → AreDistinct (structure_of script definitions).entries }
{
    items_are_well_sorted();
}

/// A model of names that were introduced one after another gives a structure to the script (SMT-LIB 2.6,
/// section 5.3). Its definitions, followed by the script's own, are each well sorted over those before it,
/// and have different names.
pub fn models_give_structures()
    ensures { (script : Signature) (parts : Sexps) (definitions : Signature)
        → model_in script parts ≡ Ok definitions → AreIntroduced script.theories None [] script.entries
        → IsStructure (structure_of script definitions) }
{
    sorts_are_kept();
    models_are_complete();
    items_are_well_sorted();
}

/// A model of the script's names is its items (SMT-LIB 2.6, section 4.2.6). Those that are not set aside are
/// definitions in order, each over the earlier ones, and define every declared name.
pub fn models_are_their_items()
    ensures { (script : Signature) (parts : Sexps) (items : List Entry)
        → (model_in script parts ≡ Ok (items_before script items))
        ↔ (AreItems script [] (items_of parts) items × AreDefined script.entries items) }
{}

/// In the wide profile, an item that repeats a definition or a label of the script, or tells of elements, changes
/// nothing of a model. With it and without it the model has the same definitions, and so gives the same structure.
pub fn repeated_items_change_no_structure()
    ensures repeated { (script definitions : Signature) (parts fewer before after : Sexps) (tree : Sexp)
        → IsRepeated script tree → items_of parts ≡ append before (Cons tree after)
        → items_of fewer ≡ append before after
        → (model_in script parts ≡ Ok definitions) ↔ (model_in script fewer ≡ Ok definitions) }
    ensures told { (script definitions : Signature) (parts fewer before after : Sexps) (tree : Sexp)
        → IsTold script tree → items_of parts ≡ append before (Cons tree after)
        → items_of fewer ≡ append before after
        → (model_in script parts ≡ Ok definitions) ↔ (model_in script fewer ≡ Ok definitions) }
{
    repeated_items_are_set_aside();
    items_that_tell_of_elements_are_set_aside();
}

/// The reported fault of a model is its first. Where an item is reported, the items before it are
/// definitions, and it has the fault. Where a lacking name is reported, all items are definitions, and it is
/// the first declared name that none of them defines.
pub fn the_first_fault_of_a_model_is_told()
    ensures item { (script : Signature) (parts : Sexps) (n : ℕ) (flaw : TermFlaw)
        → (model_in script parts ≡ Err (Item (n + 1) flaw))
        ↔ HasFirstFlaw script [] (items_of parts) n flaw }
    ensures lacking { (script : Signature) (parts : Sexps) (command : ℕ)
        → (model_in script parts ≡ Err (Lacks command))
        ↔ ((items : List Entry) × AreItems script [] (items_of parts) items
        × IsFirstLacking script.entries items command) }
{}

/// A node of a script has the value that is known of its term, over the structure that a model gives to the
/// script. The nodes are those of the model and of the script, and each declared name leads to the body that
/// the model gives to it. No term of a script names an element; those of the model may. This holds whatever is known of
/// the elements.
pub fn nodes_give_the_values_of_their_terms()
    ensures { (elements : Naming) (model script : Table) (declared : List ℕ) (names definitions : Signature)
        (around i : ℕ) (term : Sexp) → AreTermsOf script names → AreTermsOf model definitions
        → AllDefined definitions.entries → definitions.theories ≡ names.theories → names.elements ≡ None
        → AreDistinct (structure_of names definitions).entries
        → GivesBodies declared names definitions model.bodies
        → Denotes script [] 0 around i term
        → given (nodes_over elements model script declared) (length model.rows + i) []
        ≡ known_over_by elements (structure_of names definitions) term }
{
    nodes_have_their_values();
}

/// Where elements are known by the numbers of their names, a node has the value that it has where they are known by
/// their names, under its number. The value of each variable is known so too, and each element's name has a number.
pub fn numbers_stand_for_names()
    ensures { (model script : Table) (declared : List ℕ) (names : List (List ℕ)) (i : ℕ) (frame : Frame)
        → ((k : ℕ) (row : Row) (x : List ℕ) → slice_get model.rows k ≡ Some row → row.node ≡ node.Element x
        → (place : ℕ) × (place_of names x ≡ Some place))
        → given (nodes_over (numbered_in names) model script declared) i (map (in_numbers names) frame)
        ≡ in_numbers names (given (nodes_over by_name model script declared) i frame) }
{
    places_are_of_one_name();
}

/// A node of a script costs what its term costs, and one for each annotation without a label round it. The
/// structure is the one that a model gives to the script, as for values.
pub fn nodes_have_the_costs_of_their_terms()
    ensures { (elements : Naming) (model script : Table) (declared : List ℕ) (names definitions : Signature)
        (around i : ℕ) (term : Sexp) → AreTermsOf script names → AreTermsOf model definitions
        → AllDefined definitions.entries → definitions.theories ≡ names.theories → names.elements ≡ None
        → AreDistinct (structure_of names definitions).entries
        → GivesBodies declared names definitions model.bodies
        → Denotes script [] 0 around i term
        → cost (nodes_over elements model script declared) (arounds_over model script) (length model.rows + i)
        ≡ around + cost_over (structure_of names definitions) term }
{
    nodes_have_their_values();
    nodes_have_their_costs();
}

/// The evaluation of a node of a script takes at least as many steps as its term, and one for each annotation
/// without a label round it. The structure is the one that a model gives to the script, as for values.
pub fn nodes_take_the_least_of_their_terms()
    ensures { (elements : Naming) (model script : Table) (declared : List ℕ) (names definitions : Signature)
        (around i : ℕ) (term : Sexp) → AreTermsOf script names → AreTermsOf model definitions
        → AllDefined definitions.entries → definitions.theories ≡ names.theories → names.elements ≡ None
        → AreDistinct (structure_of names definitions).entries
        → GivesBodies declared names definitions model.bodies
        → Denotes script [] 0 around i term
        → around + least_of names.theories term
        ≤ least (nodes_over elements model script declared) (arounds_over model script) (length model.rows + i) }
{
    nodes_have_their_values();
    nodes_have_their_costs();
    nodes_have_their_least();
}

/// What the evaluation of a term takes at least is within its cost, whatever bodies cost.
pub fn the_least_is_within_the_cost()
    ensures { (theories : Theories) (b : BodyCosts) (variables : List (List ℕ)) (term : Sexp)
        → least_of theories term ≤ cost_of b variables term }
{}

/// Where a script defines no name, a term costs for each atom and list in it one more than the greatest cost of a node
/// of the model, at most. The structure is the one that a model gives to the script, as for values.
pub fn terms_cost_by_their_sizes()
    ensures { (elements : Naming) (model script : Table) (declared : List ℕ) (names definitions : Signature)
        (term : Sexp) → AreTermsOf script names → AreTermsOf model definitions
        → AllDefined definitions.entries → definitions.theories ≡ names.theories → names.elements ≡ None
        → AreDistinct (structure_of names definitions).entries
        → GivesBodies declared names definitions model.bodies
        → defined_among names.entries ≡ []
        → greatest_of (length model.rows) (cost (nodes_over elements model script declared)
        (arounds_over model script)) < 2 ^ 64 - 1
        → cost_over (structure_of names definitions) term
        ≤ weight term * (greatest_of (length model.rows) (cost (nodes_over elements model script declared)
        (arounds_over model script)) + 1) }
{
    nodes_have_their_values();
    nodes_have_their_costs();
}

/// The costs of some terms: `(= (+ x 1) 3)` where `x` is 2; two annotations round `true`; and functions each
/// of which calls the one before twice.
pub fn some_costs_are_told_in_numbers()
    ensures sum { cost_of (costs_after no_costs (two_for_x ∷ [])) [] sum_is_three ≡ 6 }
    ensures annotated { cost_of no_costs [] annotated_twice ≡ 3 }
    ensures doubling { (k : ℕ) → costs_after no_costs (doublings k) (doubling_name k) + 3 ≡ 6 * 2 ^ k }
{}
