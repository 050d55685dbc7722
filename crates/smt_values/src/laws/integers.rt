//! Laws of the operators on integers: what each gives, through `operate`. Nothing here does anything.

ghost use Rattle.std.specs.Prelude.{◌≡◌, ◌≢◌, ◌↔◌, ℤ, pos, ◌+ℤ◌, ◌*ℤ◌, ◌<ℤ◌, ◌≤ℤ◌, unsigned_abs, List, [], ◌∷◌};
ghost use Rattle.std.specs.Prelude.{true, false};
ghost use Rattle.std.specs.List.{list_any};
ghost use Rattle.smt_theory.specs.declared.op.Arithmetic.{Arithmetic};
ghost use Rattle.smt_theory.specs.declared.op.Arithmetic.TheVariants.{Div, Minus, Plus, Times};
ghost use Rattle.smt_theory.specs.declared.op.Comparison.{Comparison};
ghost use Rattle.smt_theory.specs.declared.op.Comparison.TheVariants.{AtLeast, AtMost, Greater, Less};
ghost use Rattle.smt_theory.specs.declared.op.CoreOp.TheVariants.{And};
ghost use Rattle.smt_theory.specs.declared.op.IntsOp.TheVariants.{Arithmetic as Left, Comparison as Chain, Mod};
ghost use Rattle.smt_theory.specs.declared.op.Op.TheVariants.{Core, Ints};
ghost use Rattle.smt_values.specs.Element.{Element, Integer, Truth};
ghost use Rattle.smt_values.specs.Numbers.{is_fraction};
ghost use Rattle.smt_values.specs.Operations.{DivisionByZero, operate, quotient, remainder};

/// `+`, `-` and `*` of two integers, by what they do at 0 and at one more, or by what undoes them: `a + 0` is a,
/// and `a + (b + 1)` is one more than `a + b`; `a - b` makes a with b, and `-a` makes 0 with a; `a * 0` is 0, and
/// `a * (b + 1)` is a more than `a * b` (SMT-LIB 2.6, theory Ints).
pub fn integers_are_calculated()
    ensures plus { (z : DivisionByZero) (a b : ℤ)
        → operate z (Ints (Left Plus)) (Integer a ∷ Integer b ∷ []) ≡ Integer (a +ℤ b) }
    ensures plus_zero { (z : DivisionByZero) (a : ℤ)
        → operate z (Ints (Left Plus)) (Integer a ∷ Integer (pos 0) ∷ []) ≡ Integer a }
    ensures plus_more { (z : DivisionByZero) (a b c : ℤ)
        → operate z (Ints (Left Plus)) (Integer a ∷ Integer b ∷ []) ≡ Integer c
        → operate z (Ints (Left Plus)) (Integer a ∷ Integer (b +ℤ pos 1) ∷ []) ≡ Integer (c +ℤ pos 1) }
    ensures minus { (z : DivisionByZero) (a b c : ℤ)
        → (operate z (Ints (Left Minus)) (Integer a ∷ Integer b ∷ []) ≡ Integer c) ↔ (c +ℤ b ≡ a) }
    ensures negative { (z : DivisionByZero) (a c : ℤ)
        → (operate z (Ints (Left Minus)) (Integer a ∷ []) ≡ Integer c) ↔ (c +ℤ a ≡ pos 0) }
    ensures times_zero { (z : DivisionByZero) (a : ℤ)
        → operate z (Ints (Left Times)) (Integer a ∷ Integer (pos 0) ∷ []) ≡ Integer (pos 0) }
    ensures times_more { (z : DivisionByZero) (a b c : ℤ)
        → (operate z (Ints (Left Times)) (Integer a ∷ Integer b ∷ []) ≡ Integer c)
        ↔ (operate z (Ints (Left Times)) (Integer a ∷ Integer (b +ℤ pos 1) ∷ []) ≡ Integer (c +ℤ a)) }
{}

/// `+`, `-` and `*` combine more than two numbers from the left, and `div` more than two integers (SMT-LIB 2.6,
/// theories Ints and Reals_Ints).
pub fn integers_are_combined_from_the_left()
    ensures { (z : DivisionByZero) (op : Arithmetic) (a b c : Element) (rest : List Element)
        → (op ≡ Div → list_any is_fraction (a ∷ b ∷ c ∷ rest) ≡ false)
        → operate z (Ints (Left op)) (a ∷ b ∷ c ∷ rest)
        ≡ operate z (Ints (Left op)) (operate z (Ints (Left op)) (a ∷ b ∷ []) ∷ c ∷ rest) }
{
    crate::laws::rationals::integers_are_calculated_alike();
}

/// Where n is not 0, `div` gives the one q and `mod` the one r with `a = n * q + r` and `0 <= r < |n|`. By 0
/// they give what z has (SMT-LIB 2.6, theory Ints).
pub fn integers_are_divided()
    ensures quotient { (z : DivisionByZero) (a n q : ℤ) → n ≢ pos 0
        → (operate z (Ints (Left Div)) (Integer a ∷ Integer n ∷ []) ≡ Integer q)
        ↔ ((r : ℤ) × (a ≡ n *ℤ q +ℤ r) × (pos 0 ≤ℤ r) × (r <ℤ pos (unsigned_abs n))) }
    ensures remainder { (z : DivisionByZero) (a n r : ℤ) → n ≢ pos 0
        → (operate z (Ints Mod) (Integer a ∷ Integer n ∷ []) ≡ Integer r)
        ↔ ((q : ℤ) × (a ≡ n *ℤ q +ℤ r) × (pos 0 ≤ℤ r) × (r <ℤ pos (unsigned_abs n))) }
    ensures quotient_by_zero { (z : DivisionByZero) (a : ℤ)
        → operate z (Ints (Left Div)) (Integer a ∷ Integer (pos 0) ∷ []) ≡ Integer (quotient z a (pos 0)) }
    ensures remainder_by_zero { (z : DivisionByZero) (a : ℤ)
        → operate z (Ints Mod) (Integer a ∷ Integer (pos 0) ∷ []) ≡ Integer (remainder z a (pos 0)) }
{
    crate::laws::division_is_by_the_law();
}

/// `<`, `<=`, `>` and `>=` hold of two integers that are so related, and of more numbers where each is so related to
/// the next (SMT-LIB 2.6, theories Ints and Reals_Ints).
pub fn chains_are_by_neighbours()
    ensures less { (z : DivisionByZero) (a b : ℤ)
        → (operate z (Ints (Chain Less)) (Integer a ∷ Integer b ∷ []) ≡ Truth true) ↔ (a <ℤ b) }
    ensures at_most { (z : DivisionByZero) (a b : ℤ)
        → (operate z (Ints (Chain AtMost)) (Integer a ∷ Integer b ∷ []) ≡ Truth true) ↔ (a ≤ℤ b) }
    ensures greater { (z : DivisionByZero) (a b : ℤ)
        → (operate z (Ints (Chain Greater)) (Integer a ∷ Integer b ∷ []) ≡ Truth true) ↔ (b <ℤ a) }
    ensures at_least { (z : DivisionByZero) (a b : ℤ)
        → (operate z (Ints (Chain AtLeast)) (Integer a ∷ Integer b ∷ []) ≡ Truth true) ↔ (b ≤ℤ a) }
    ensures chained { (z : DivisionByZero) (op : Comparison) (a b c : Element) (rest : List Element)
        → operate z (Ints (Chain op)) (a ∷ b ∷ c ∷ rest)
        ≡ operate z (Core And) (operate z (Ints (Chain op)) (a ∷ b ∷ [])
        ∷ operate z (Ints (Chain op)) (b ∷ c ∷ rest) ∷ []) }
{
    crate::laws::rationals::integers_are_calculated_alike();
}
