//! Laws of the theory Core: truth tables, and the operators on more than two arguments. Nothing here does
//! anything.

ghost use Rattle.std.specs.List.{AllPairs};
ghost use Rattle.std.specs.Prelude.{◌≡◌, ◌≢◌, ◌↔◌, List, [], ◌∷◌, Bool, true, false, All};
ghost use Rattle.smt_theory.specs.declared.op.CoreOp.TheVariants.{True, False, Not, And, Or, Xor, Implies};
ghost use Rattle.smt_theory.specs.declared.op.CoreOp.TheVariants.{Equal, Distinct, Ite};
ghost use Rattle.smt_theory.specs.declared.op.Op.TheVariants.{Core};
ghost use Rattle.smt_values.specs.Element.{Element, Truth};
ghost use Rattle.smt_values.specs.Operations.{DivisionByZero, operate};

/// The truth tables (SMT-LIB 2.6, theory Core): two values, and the result.
pub fn connectives_have_their_truth_tables()
    ensures constants { (z : DivisionByZero) → (operate z (Core True) [] ≡ Truth true)
        × (operate z (Core False) [] ≡ Truth false) }
    ensures not { (z : DivisionByZero) → (operate z (Core Not) (Truth false ∷ []) ≡ Truth true)
        × (operate z (Core Not) (Truth true ∷ []) ≡ Truth false) }
    ensures and { (z : DivisionByZero) → All (λ (row : Bool × Bool × Bool).
        operate z (Core And) (Truth row.0 ∷ Truth row.1 ∷ []) ≡ Truth row.2)
        ((false, false, false) ∷ (false, true, false) ∷ (true, false, false) ∷ (true, true, true) ∷ []) }
    ensures or { (z : DivisionByZero) → All (λ (row : Bool × Bool × Bool).
        operate z (Core Or) (Truth row.0 ∷ Truth row.1 ∷ []) ≡ Truth row.2)
        ((false, false, false) ∷ (false, true, true) ∷ (true, false, true) ∷ (true, true, true) ∷ []) }
    ensures xor { (z : DivisionByZero) → All (λ (row : Bool × Bool × Bool).
        operate z (Core Xor) (Truth row.0 ∷ Truth row.1 ∷ []) ≡ Truth row.2)
        ((false, false, false) ∷ (false, true, true) ∷ (true, false, true) ∷ (true, true, false) ∷ []) }
    ensures implies { (z : DivisionByZero) → All (λ (row : Bool × Bool × Bool).
        operate z (Core Implies) (Truth row.0 ∷ Truth row.1 ∷ []) ≡ Truth row.2)
        ((false, false, true) ∷ (false, true, true) ∷ (true, false, false) ∷ (true, true, true) ∷ []) }
    ensures choice { (z : DivisionByZero) (a b : Element)
        → (operate z (Core Ite) (Truth true ∷ a ∷ b ∷ []) ≡ a)
        × (operate z (Core Ite) (Truth false ∷ a ∷ b ∷ []) ≡ b) }
{}

/// Operators combine three truth values or more two by two: from the left, and `=>` from the right (SMT-LIB
/// 2.6, theory Core).
pub fn connectives_associate()
    ensures and { (z : DivisionByZero) (a b c : Bool) (rest : List Element)
        → operate z (Core And) (Truth a ∷ Truth b ∷ Truth c ∷ rest)
        ≡ operate z (Core And) (operate z (Core And) (Truth a ∷ Truth b ∷ []) ∷ Truth c ∷ rest) }
    ensures or { (z : DivisionByZero) (a b c : Bool) (rest : List Element)
        → operate z (Core Or) (Truth a ∷ Truth b ∷ Truth c ∷ rest)
        ≡ operate z (Core Or) (operate z (Core Or) (Truth a ∷ Truth b ∷ []) ∷ Truth c ∷ rest) }
    ensures xor { (z : DivisionByZero) (a b c : Bool) (rest : List Element)
        → operate z (Core Xor) (Truth a ∷ Truth b ∷ Truth c ∷ rest)
        ≡ operate z (Core Xor) (operate z (Core Xor) (Truth a ∷ Truth b ∷ []) ∷ Truth c ∷ rest) }
    ensures implies { (z : DivisionByZero) (a b c : Bool) (rest : List Element)
        → operate z (Core Implies) (Truth a ∷ Truth b ∷ Truth c ∷ rest)
        ≡ operate z (Core Implies) (Truth a ∷ operate z (Core Implies) (Truth b ∷ Truth c ∷ rest) ∷ []) }
{}

/// `=` says that two arguments are the same, and of more, that each is the same as the next. `distinct` says
/// that two arguments are not the same, and of more, that no two are (SMT-LIB 2.6, theory Core).
pub fn equals_and_distinct_are_by_pairs()
    ensures equal { (z : DivisionByZero) (a b : Element)
        → (operate z (Core Equal) (a ∷ b ∷ []) ≡ Truth true) ↔ (a ≡ b) }
    ensures chained { (z : DivisionByZero) (a b c : Element) (rest : List Element)
        → operate z (Core Equal) (a ∷ b ∷ c ∷ rest)
        ≡ operate z (Core And) (operate z (Core Equal) (a ∷ b ∷ [])
        ∷ operate z (Core Equal) (b ∷ c ∷ rest) ∷ []) }
    ensures distinct { (z : DivisionByZero) (a b : Element)
        → operate z (Core Distinct) (a ∷ b ∷ [])
        ≡ operate z (Core Not) (operate z (Core Equal) (a ∷ b ∷ []) ∷ []) }
    ensures three { (z : DivisionByZero) (a b c : Element)
        → operate z (Core Distinct) (a ∷ b ∷ c ∷ [])
        ≡ operate z (Core And) (operate z (Core Distinct) (a ∷ b ∷ [])
        ∷ operate z (Core Distinct) (a ∷ c ∷ []) ∷ operate z (Core Distinct) (b ∷ c ∷ []) ∷ []) }
    ensures all { (z : DivisionByZero) (args : List Element)
        → (operate z (Core Distinct) args ≡ Truth true) ↔ AllPairs (λ a b. a ≢ b) args }
{}
