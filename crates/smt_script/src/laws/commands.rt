//! Laws of single commands: what a check assumes, and which commands are checks or change what is in force.
//! Nothing here does anything.

ghost use Rattle.std.specs.Prelude.{◌≡◌, ◌≢◌, ◌↔◌, ◌==◌, ℕ, List, [], ◌∷◌, Bool, true, false, Ok, Err, Option, Some};
ghost use Rattle.std.specs.Prelude.{All, codes};
ghost use Rattle.std.specs.Str.Parse.{digits_value};
ghost use Rattle.smt_faults.specs.declared.command_flaw.CommandFlaw.TheVariants.{Form, Unsupported};
ghost use Rattle.smt_theory.specs.Theories.{theories_named};
ghost use Rattle.smt_theory.specs.declared.profile.Profile.{Profile};
ghost use Rattle.smt_theory.specs.declared.profile.Profile.TheVariants.{Base, Wide};
ghost use Rattle.smt_theory.specs.declared.theories.Theories.{Theories};
ghost use Rattle.smt_trees.specs.Sexp.{Sexp, Sexps, Atom, Cons, Items, Nil, Numeral, Reserved, Symbol};
ghost use Rattle.smt_trees.specs.declared.reserved.Word.TheVariants as words;
ghost use Rattle.smt_script.specs.Command.{Assert, CheckSat, CheckSatAssuming, Command, DeclareConst};
ghost use Rattle.smt_script.specs.Command.{DeclareFun, DeclareSort, DefineFun, DefineSort, Echo, Exit, Get};
ghost use Rattle.smt_script.specs.Command.{GetModel, Pop};
ghost use Rattle.smt_script.specs.Command.{Push, Query, Reset, ResetAssertions, SetGlobalDeclarations};
ghost use Rattle.smt_script.specs.Command.{SetInfo, SetLogic, SetOption, SetPrintSuccess, closes_window};
ghost use Rattle.smt_script.specs.Command.{command_of, is_check, kind_of};
ghost use Rattle.smt_script.specs.Parts.{are_literals};
ghost use Rattle.smt_script.specs.Stack.{literals_of};
ghost use Rattle.smt_script.specs.declared.command.Kind.TheVariants as kinds;

/// The literals of a `check-sat-assuming` are those of its list, one by one; no other command assumes any
/// (SMT-LIB 2.6, section 4.2.5).
pub fn literals_are_those_of_the_list()
    ensures none { literals_of (CheckSatAssuming Nil) ≡ [] }
    ensures more { (t : Sexp) (ts : Sexps)
        → literals_of (CheckSatAssuming (Cons t ts)) ≡ t ∷ literals_of (CheckSatAssuming ts) }
    ensures others { (command : Command) → literals_of command ≢ []
        → (ts : Sexps) × (command ≡ CheckSatAssuming ts) }
{}

/// Which commands ask whether the assertions are satisfiable, and which change what is in force and so end
/// the models of the check before them. Every command is listed.
pub fn commands_are_checks_or_changes()
    ensures checks { (ts : Sexps) → All (λ c. (is_check c ≡ true) × (closes_window c ≡ false))
        (CheckSat ∷ CheckSatAssuming ts ∷ []) }
    ensures changes { (x : List ℕ) (ps : Sexps) (named : List (List ℕ × Sexp)) (sort term : Sexp) (n : ℕ)
        → All (λ c. (is_check c ≡ false) × (closes_window c ≡ true))
        (SetLogic x ∷ DeclareConst x sort ∷ DeclareFun x ps sort ∷ DefineFun x named sort term
        ∷ DeclareSort x ∷ DefineSort x sort ∷ Assert term ∷ Push n ∷ Pop n ∷ Reset ∷ ResetAssertions ∷ []) }
    ensures others { (x : List ℕ) (value : Option Sexp) (on : Bool) (query : Query)
        → All (λ c. (is_check c ≡ false) × (closes_window c ≡ false))
        (SetPrintSuccess on ∷ SetGlobalDeclarations on ∷ SetOption x value ∷ SetInfo x value ∷ Exit
        ∷ GetModel ∷ Echo x ∷ Get query ∷ []) }
{}

/// The kind of a command that sets a logic says whether the profile Wide has a logic of that name.
pub fn known_logics_are_those_of_wide()
    ensures { (name : List ℕ) → (kind_of (SetLogic name) ≡ kinds.Logic true)
        ↔ ((theories : Theories) × (theories_named Wide name ≡ Some theories)) }
{}

/// These lists are reported as unsupported, and not as ill formed: a command of datatypes or of recursive functions,
/// whatever follows its word; a `declare-sort`, in the profile Base whatever follows its word, and in Wide with
/// another number than 0; and a `define-sort` with parameters.
pub fn unsupported_commands_are_told_by_their_words()
    ensures words { (profile : Profile) (parts : Sexps)
        → All (λ w. command_of profile (Items (Cons (Reserved w) parts)) ≡ Err Unsupported)
        (words.DeclareDatatype ∷ words.DeclareDatatypes ∷ words.DefineFunRec ∷ words.DefineFunsRec ∷ []) }
    ensures declared { (parts : Sexps)
        → command_of Base (Items (Cons (Reserved words.DeclareSort) parts)) ≡ Err Unsupported }
    ensures parameters { (profile : Profile) (x digits : List ℕ) → digits_value 10 digits == 0 ≡ false
        → command_of profile (Items (Cons (Reserved words.DeclareSort)
        (Cons (Atom Symbol x) (Cons (Atom Numeral digits) Nil)))) ≡ Err Unsupported }
    ensures sorts { (profile : Profile) (x : List ℕ) (p sort : Sexp) (ps : Sexps)
        → command_of profile (Items (Cons (Reserved words.DefineSort)
        (Cons (Atom Symbol x) (Cons (Items (Cons p ps)) (Cons sort Nil))))) ≡ Err Unsupported }
{}

/// Each command of the profile Base is the same command in the profile Wide.
pub fn wide_reads_what_base_reads()
    ensures { (tree : Sexp) (command : Command) → command_of Base tree ≡ Ok command
        → command_of Wide tree ≡ Ok command }
{}

/// Forms that are commands in the profile Wide: the declaration of a sort without parameters; `(push)` and `(pop)`
/// without a numeral, for one level; the definition of a constant; and any terms as assumptions (SMT-LIB 2.7).
pub fn wide_has_more_forms()
    ensures sorts { (x digits : List ℕ) → digits_value 10 digits == 0 ≡ true
        → command_of Wide (Items (Cons (Reserved words.DeclareSort)
        (Cons (Atom Symbol x) (Cons (Atom Numeral digits) Nil)))) ≡ Ok (DeclareSort x) }
    ensures levels { (command_of Wide (Items (Cons (Reserved words.Push) Nil)) ≡ Ok (Push 1))
        × (command_of Wide (Items (Cons (Reserved words.Pop) Nil)) ≡ Ok (Pop 1)) }
    ensures constants { (x : List ℕ) (sort body : Sexp)
        → command_of Wide (Items (Cons (Atom Symbol (codes "define-const"))
        (Cons (Atom Symbol x) (Cons sort (Cons body Nil))))) ≡ Ok (DefineFun x [] sort body) }
    ensures assumptions { (terms : Sexps)
        → command_of Wide (Items (Cons (Reserved words.CheckSatAssuming) (Cons (Items terms) Nil)))
        ≡ Ok (CheckSatAssuming terms) }
{}

/// The profile Base refuses these for their form: `(push)` and `(pop)`, each definition of a constant, and
/// assumptions of which one is no literal (SMT-LIB 2.6, sections 4.2.2 and 4.2.5).
pub fn base_has_none_of_them()
    ensures levels { All (λ w. command_of Base (Items (Cons (Reserved w) Nil)) ≡ Err Form)
        (words.Push ∷ words.Pop ∷ []) }
    ensures constants { (parts : Sexps)
        → command_of Base (Items (Cons (Atom Symbol (codes "define-const")) parts)) ≡ Err Form }
    ensures assumptions { (terms : Sexps) → are_literals terms ≡ false
        → command_of Base (Items (Cons (Reserved words.CheckSatAssuming) (Cons (Items terms) Nil))) ≡ Err Form }
{}
