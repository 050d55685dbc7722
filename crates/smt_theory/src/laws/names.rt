//! The tables of names, stated a second time: from the name to the operator, and from the theories to the
//! logics. Nothing here does anything.

ghost use Rattle.std.specs.Prelude.{◌≡◌, ◌↔◌, ℕ, List, [], ◌∷◌, Bool, true, false, Ok, Err, Option, Some, None, All};
ghost use Rattle.std.specs.Prelude.{◌⊎◌, codes};
ghost use Rattle.smt_theory.specs.Index.{IndexView, Number};
ghost use Rattle.smt_theory.specs.Operators.{op_by};
ghost use Rattle.smt_theory.specs.Ranks.{rank_of};
ghost use Rattle.smt_theory.specs.Sort.{Bits as Vector, Boolean, Int, Real, Sort};
ghost use Rattle.smt_theory.specs.Theories.{AreWideLogicsOf, all_theories, theories_named};
ghost use Rattle.smt_theory.specs.declared.op.Arithmetic.TheVariants as arithmetic;
ghost use Rattle.smt_theory.specs.declared.op.BitsBinary.TheVariants as binary;
ghost use Rattle.smt_theory.specs.declared.op.BitsComparison.TheVariants as compare;
ghost use Rattle.smt_theory.specs.declared.op.BitsFolded.TheVariants as folded;
ghost use Rattle.smt_theory.specs.declared.op.BitsOp.{BitsOp};
ghost use Rattle.smt_theory.specs.declared.op.BitsOp.TheVariants as bits;
ghost use Rattle.smt_theory.specs.declared.op.BitsUnary.TheVariants as unary;
ghost use Rattle.smt_theory.specs.declared.op.Comparison.TheVariants as comparison;
ghost use Rattle.smt_theory.specs.declared.op.CoreOp.{CoreOp};
ghost use Rattle.smt_theory.specs.declared.op.CoreOp.TheVariants as core;
ghost use Rattle.smt_theory.specs.declared.op.IntsOp.{IntsOp};
ghost use Rattle.smt_theory.specs.declared.op.IntsOp.TheVariants as ints;
ghost use Rattle.smt_theory.specs.declared.op.Op.{Op};
ghost use Rattle.smt_theory.specs.declared.op.Op.TheVariants.{Core, Ints, Reals, Bits};
ghost use Rattle.smt_theory.specs.declared.op.OpFault.TheVariants.{Index, Unknown};
ghost use Rattle.smt_theory.specs.declared.op.RealsOp.{RealsOp};
ghost use Rattle.smt_theory.specs.declared.op.RealsOp.TheVariants as reals;
ghost use Rattle.smt_theory.specs.declared.profile.Profile.TheVariants.{Base, Wide};
ghost use Rattle.smt_theory.specs.declared.theories.Theories.{Theories};

/// Which operator of the theories Core and Ints each symbol without indexes names (SMT-LIB 2.6).
pub fn plain_names_are_the_standards()
    ensures core { All (λ (row : List ℕ × CoreOp). op_by (all_theories Base) row.0 []
        ≡ Ok (Core row.1))
        ((codes "true", core.True) ∷ (codes "false", core.False) ∷ (codes "not", core.Not)
        ∷ (codes "and", core.And) ∷ (codes "or", core.Or) ∷ (codes "xor", core.Xor)
        ∷ (codes "=>", core.Implies) ∷ (codes "=", core.Equal) ∷ (codes "distinct", core.Distinct)
        ∷ (codes "ite", core.Ite) ∷ []) }
    ensures ints { All (λ (row : List ℕ × IntsOp). op_by (all_theories Base) row.0 []
        ≡ Ok (Ints row.1))
        ((codes "+", ints.Arithmetic arithmetic.Plus) ∷ (codes "-", ints.Arithmetic arithmetic.Minus)
        ∷ (codes "*", ints.Arithmetic arithmetic.Times) ∷ (codes "div", ints.Arithmetic arithmetic.Div)
        ∷ (codes "mod", ints.Mod) ∷ (codes "abs", ints.Abs)
        ∷ (codes "<", ints.Comparison comparison.Less) ∷ (codes "<=", ints.Comparison comparison.AtMost)
        ∷ (codes ">", ints.Comparison comparison.Greater)
        ∷ (codes ">=", ints.Comparison comparison.AtLeast) ∷ []) }
{}

/// Which operator of the theories Reals and Reals_Ints each symbol names where there are reals, with and without
/// integers (SMT-LIB 2.6). Without reals none of these is there.
pub fn names_of_reals_are_the_standards()
    ensures reals { All (λ (row : List ℕ × RealsOp). op_by (all_theories Wide) row.0 [] ≡ Ok (Reals row.1))
        ((codes "/", reals.Divide) ∷ (codes "to_real", reals.ToReal) ∷ (codes "to_int", reals.ToInt)
        ∷ (codes "is_int", reals.IsInt) ∷ []) }
    ensures numbers { All (λ (row : List ℕ × IntsOp). op_by
        (record { ints = false; bits = false; reals = true; arrays = false; wide = true }) row.0 []
        ≡ Ok (Ints row.1))
        ((codes "+", ints.Arithmetic arithmetic.Plus) ∷ (codes "-", ints.Arithmetic arithmetic.Minus)
        ∷ (codes "*", ints.Arithmetic arithmetic.Times) ∷ (codes "<", ints.Comparison comparison.Less)
        ∷ (codes "<=", ints.Comparison comparison.AtMost) ∷ (codes ">", ints.Comparison comparison.Greater)
        ∷ (codes ">=", ints.Comparison comparison.AtLeast) ∷ []) }
    ensures lacking { All (λ (symbol : List ℕ). op_by
        (record { ints = false; bits = false; reals = true; arrays = false; wide = true }) symbol []
        ≡ Err Unknown)
        (codes "div" ∷ codes "mod" ∷ codes "abs" ∷ codes "to_real" ∷ codes "to_int" ∷ codes "is_int" ∷ []) }
    ensures base { All (λ (symbol : List ℕ). op_by (all_theories Base) symbol [] ≡ Err Unknown)
        (codes "/" ∷ codes "to_real" ∷ codes "to_int" ∷ codes "is_int" ∷ []) }
{}

/// Which sorts of numbers the operators accept, and which they give; that integers and reals mix is this project's own.
pub fn ranks_of_numbers_are_those()
    ensures mixed { All (λ (row : IntsOp × List Sort × Sort). rank_of (Ints row.0) row.1 ≡ Some row.2)
        ((ints.Arithmetic arithmetic.Plus, Int ∷ Int ∷ [], Int)
        ∷ (ints.Arithmetic arithmetic.Plus, Int ∷ Real ∷ Int ∷ [], Real)
        ∷ (ints.Arithmetic arithmetic.Minus, Real ∷ [], Real) ∷ (ints.Arithmetic arithmetic.Minus, Int ∷ [], Int)
        ∷ (ints.Arithmetic arithmetic.Times, Real ∷ Real ∷ [], Real)
        ∷ (ints.Comparison comparison.Less, Real ∷ Int ∷ [], Boolean) ∷ []) }
    ensures reals { All (λ (row : RealsOp × List Sort × Sort). rank_of (Reals row.0) row.1 ≡ Some row.2)
        ((reals.Divide, Int ∷ Int ∷ [], Real) ∷ (reals.Divide, Real ∷ Int ∷ Real ∷ [], Real)
        ∷ (reals.ToReal, Int ∷ [], Real) ∷ (reals.ToInt, Real ∷ [], Int) ∷ (reals.IsInt, Real ∷ [], Boolean) ∷ []) }
    ensures core { All (λ (row : CoreOp × List Sort × Sort). rank_of (Core row.0) row.1 ≡ Some row.2)
        ((core.Equal, Int ∷ Real ∷ [], Boolean) ∷ (core.Distinct, Real ∷ Int ∷ Int ∷ [], Boolean)
        ∷ (core.Ite, Boolean ∷ Int ∷ Real ∷ [], Real) ∷ (core.Ite, Boolean ∷ Int ∷ Int ∷ [], Int) ∷ []) }
    ensures none { All (λ (row : Op × List Sort). rank_of row.0 row.1 ≡ None)
        ((Ints ints.Mod, Real ∷ Int ∷ []) ∷ (Ints ints.Abs, Real ∷ []) ∷ (Ints (ints.Divisible 2), Real ∷ [])
        ∷ (Ints (ints.Arithmetic arithmetic.Div), Int ∷ Real ∷ []) ∷ (Reals reals.ToReal, Real ∷ [])
        ∷ (Reals reals.Divide, Real ∷ []) ∷ (Core core.Equal, Real ∷ Boolean ∷ []) ∷ []) }
{}

/// Which operator on bit vectors each symbol without indexes names (SMT-LIB 2.6, theory FixedSizeBitVectors
/// and logic QF_BV).
pub fn plain_names_of_vectors_are_the_standards()
    ensures arithmetic { All (λ (row : List ℕ × BitsOp). op_by (all_theories Base) row.0 []
        ≡ Ok (Bits row.1))
        ((codes "bvadd", bits.Folded folded.Add) ∷ (codes "bvsub", bits.Binary binary.Subtract)
        ∷ (codes "bvneg", bits.Unary unary.Negate) ∷ (codes "bvmul", bits.Folded folded.Multiply)
        ∷ (codes "bvudiv", bits.Binary binary.DivideUnsigned)
        ∷ (codes "bvurem", bits.Binary binary.RemainderUnsigned)
        ∷ (codes "bvsdiv", bits.Binary binary.DivideSigned)
        ∷ (codes "bvsrem", bits.Binary binary.RemainderSigned)
        ∷ (codes "bvsmod", bits.Binary binary.ModuloSigned) ∷ []) }
    ensures bitwise { All (λ (row : List ℕ × BitsOp). op_by (all_theories Base) row.0 []
        ≡ Ok (Bits row.1))
        ((codes "bvnot", bits.Unary unary.Not) ∷ (codes "bvand", bits.Folded folded.And)
        ∷ (codes "bvnand", bits.Binary binary.Nand) ∷ (codes "bvor", bits.Folded folded.Or)
        ∷ (codes "bvnor", bits.Binary binary.Nor) ∷ (codes "bvxor", bits.Folded folded.Xor)
        ∷ (codes "bvxnor", bits.Binary binary.Xnor) ∷ (codes "bvshl", bits.Binary binary.ShiftLeft)
        ∷ (codes "bvlshr", bits.Binary binary.ShiftRight)
        ∷ (codes "bvashr", bits.Binary binary.ShiftRightSigned) ∷ (codes "concat", bits.Concat) ∷ []) }
    ensures comparisons { All (λ (row : List ℕ × BitsOp). op_by (all_theories Base) row.0 []
        ≡ Ok (Bits row.1))
        ((codes "bvult", bits.Comparison compare.UnsignedLess)
        ∷ (codes "bvule", bits.Comparison compare.UnsignedAtMost)
        ∷ (codes "bvugt", bits.Comparison compare.UnsignedGreater)
        ∷ (codes "bvuge", bits.Comparison compare.UnsignedAtLeast)
        ∷ (codes "bvslt", bits.Comparison compare.SignedLess)
        ∷ (codes "bvsle", bits.Comparison compare.SignedAtMost)
        ∷ (codes "bvsgt", bits.Comparison compare.SignedGreater)
        ∷ (codes "bvsge", bits.Comparison compare.SignedAtLeast) ∷ (codes "bvcomp", bits.Comp) ∷ []) }
{}

/// Which operator each symbol names that the profile Wide adds to those on bit vectors (SMT-LIB 2.7, theory
/// FixedSizeBitVectors; `bv2nat` and `int2bv` are older names). Those between integers and bit vectors are there only
/// with both, and nothing of this without the profile.
pub fn names_that_wide_adds_to_vectors_are_those()
    ensures plain { All (λ (row : List ℕ × BitsOp). op_by (all_theories Wide) row.0 [] ≡ Ok (Bits row.1))
        ((codes "bvnego", bits.Unary unary.NegateOverflows)
        ∷ (codes "bvuaddo", bits.Comparison compare.UnsignedAddOverflows)
        ∷ (codes "bvsaddo", bits.Comparison compare.SignedAddOverflows)
        ∷ (codes "bvumulo", bits.Comparison compare.UnsignedMultiplyOverflows)
        ∷ (codes "bvsmulo", bits.Comparison compare.SignedMultiplyOverflows)
        ∷ (codes "bvusubo", bits.Comparison compare.UnsignedSubtractOverflows)
        ∷ (codes "bvssubo", bits.Comparison compare.SignedSubtractOverflows)
        ∷ (codes "bvsdivo", bits.Comparison compare.SignedDivideOverflows)
        ∷ (codes "ubv_to_int", bits.Unary unary.ToInt) ∷ (codes "bv2nat", bits.Unary unary.ToIntOlder)
        ∷ (codes "sbv_to_int", bits.Unary unary.SignedToInt) ∷ []) }
    ensures indexed { All (λ (row : List ℕ × BitsOp). op_by (all_theories Wide) row.0 (Number 128 ∷ [])
        ≡ Ok (Bits row.1))
        ((codes "int_to_bv", bits.FromInt 128) ∷ (codes "int2bv", bits.FromIntOlder 128) ∷ []) }
    ensures index { All (λ (indexes : List IndexView). op_by (all_theories Wide) (codes "int2bv") indexes ≡ Err Index)
        ((Number 0 ∷ []) ∷ (Number 129 ∷ []) ∷ (Number 8 ∷ Number 8 ∷ []) ∷ []) }
    ensures lacking { All (λ (row : List ℕ × List IndexView). op_by
        (record { ints = false; bits = true; reals = true; arrays = true; wide = true }) row.0 row.1 ≡ Err Unknown)
        ((codes "ubv_to_int", []) ∷ (codes "bv2nat", []) ∷ (codes "sbv_to_int", [])
        ∷ (codes "int_to_bv", Number 8 ∷ []) ∷ (codes "int2bv", Number 8 ∷ []) ∷ []) }
    ensures base { All (λ (row : List ℕ × List IndexView). op_by (all_theories Base) row.0 row.1 ≡ Err Unknown)
        ((codes "bvnego", []) ∷ (codes "bvuaddo", []) ∷ (codes "bvsaddo", []) ∷ (codes "bvumulo", [])
        ∷ (codes "bvsmulo", []) ∷ (codes "bvusubo", []) ∷ (codes "bvssubo", []) ∷ (codes "bvsdivo", [])
        ∷ (codes "ubv_to_int", []) ∷ (codes "bv2nat", []) ∷ (codes "sbv_to_int", [])
        ∷ (codes "int_to_bv", Number 8 ∷ []) ∷ (codes "int2bv", Number 8 ∷ []) ∷ []) }
{}

/// Which sorts the operators between bit vectors and integers, and those that tell of overflow, accept and give.
pub fn ranks_that_wide_adds_to_vectors_are_those()
    ensures ranks { All (λ (row : BitsOp × List Sort × Sort). rank_of (Bits row.0) row.1 ≡ Some row.2)
        ((bits.Unary unary.NegateOverflows, Vector 8 ∷ [], Boolean)
        ∷ (bits.Comparison compare.SignedMultiplyOverflows, Vector 128 ∷ Vector 128 ∷ [], Boolean)
        ∷ (bits.Unary unary.ToInt, Vector 8 ∷ [], Int) ∷ (bits.Unary unary.ToIntOlder, Vector 1 ∷ [], Int)
        ∷ (bits.Unary unary.SignedToInt, Vector 128 ∷ [], Int) ∷ (bits.FromInt 8, Int ∷ [], Vector 8)
        ∷ (bits.FromIntOlder 128, Int ∷ [], Vector 128) ∷ []) }
    ensures none { All (λ (row : BitsOp × List Sort). rank_of (Bits row.0) row.1 ≡ None)
        ((bits.Unary unary.NegateOverflows, Vector 8 ∷ Vector 8 ∷ [])
        ∷ (bits.Comparison compare.UnsignedAddOverflows, Vector 8 ∷ Vector 8 ∷ Vector 8 ∷ [])
        ∷ (bits.Comparison compare.UnsignedAddOverflows, Vector 8 ∷ Vector 9 ∷ [])
        ∷ (bits.Unary unary.ToInt, Int ∷ []) ∷ (bits.FromInt 8, Vector 8 ∷ []) ∷ (bits.FromInt 8, Real ∷ [])
        ∷ (bits.FromInt 0, Int ∷ []) ∷ (bits.FromInt 129, Int ∷ []) ∷ []) }
{}

/// Which operator a symbol with indexes names (SMT-LIB 2.6, theory Ints and logic QF_BV).
pub fn indexed_names_are_the_standards()
    ensures divisible { op_by (all_theories Base) (codes "divisible") (Number 3 ∷ [])
        ≡ Ok (Ints (ints.Divisible 3)) }
    ensures extract { op_by (all_theories Base) (codes "extract") (Number 7 ∷ Number 4 ∷ [])
        ≡ Ok (Bits (bits.Extract 7 4)) }
    ensures constant { op_by (all_theories Base) (codes "bv10") (Number 4 ∷ [])
        ≡ Ok (Bits (bits.Constant 10 4)) }
    ensures by_one { All (λ (row : List ℕ × BitsOp). op_by (all_theories Base) row.0
        (Number 3 ∷ []) ≡ Ok (Bits row.1))
        ((codes "repeat", bits.Repeat 3) ∷ (codes "zero_extend", bits.ZeroExtend 3)
        ∷ (codes "sign_extend", bits.SignExtend 3) ∷ (codes "rotate_left", bits.RotateLeft 3)
        ∷ (codes "rotate_right", bits.RotateRight 3) ∷ []) }
{}

/// The logics of the profile Base by their theories: these have them, and no others. Which logics are
/// supported is this project's own choice.
pub fn logics_are_those_of_their_theories()
    ensures core { (logic : List ℕ) → (theories_named Base logic
        ≡ Some record { ints = false; bits = false; reals = false; arrays = false; wide = false })
        ↔ (logic ≡ codes "QF_UF") }
    ensures ints { (logic : List ℕ) → (theories_named Base logic
        ≡ Some record { ints = true; bits = false; reals = false; arrays = false; wide = false })
        ↔ ((logic ≡ codes "QF_LIA") ⊎ (logic ≡ codes "QF_NIA") ⊎ (logic ≡ codes "QF_IDL")
        ⊎ (logic ≡ codes "QF_UFLIA") ⊎ (logic ≡ codes "QF_UFNIA") ⊎ (logic ≡ codes "QF_UFIDL")) }
    ensures bits { (logic : List ℕ) → (theories_named Base logic
        ≡ Some record { ints = false; bits = true; reals = false; arrays = false; wide = false })
        ↔ ((logic ≡ codes "QF_BV") ⊎ (logic ≡ codes "QF_UFBV")) }
    ensures all { (logic : List ℕ) → (theories_named Base logic
        ≡ Some record { ints = true; bits = true; reals = false; arrays = false; wide = false })
        ↔ (logic ≡ codes "ALL") }
{}

/// The logics of the profile Wide without arrays, by their theories: these have them, and no others.
pub fn wide_logics_are_those_of_their_theories()
    ensures core { AreWideLogicsOf
        (record { ints = false; bits = false; reals = false; arrays = false; wide = true })
        (codes "UF" ∷ codes "DT" ∷ codes "UFDT" ∷ codes "SAT" ∷ []) }
    ensures ints { AreWideLogicsOf
        (record { ints = true; bits = false; reals = false; arrays = false; wide = true })
        (codes "IDL" ∷ codes "LIA" ∷ codes "NIA" ∷ codes "UFIDL" ∷ codes "UFLIA" ∷ codes "UFNIA"
        ∷ codes "UFDTLIA" ∷ codes "UFDTNIA" ∷ []) }
    ensures reals { AreWideLogicsOf
        (record { ints = false; bits = false; reals = true; arrays = false; wide = true })
        (codes "RDL" ∷ codes "LRA" ∷ codes "NRA" ∷ codes "UFRDL" ∷ codes "UFLRA" ∷ codes "UFNRA"
        ∷ []) }
    ensures ints_and_reals { AreWideLogicsOf
        (record { ints = true; bits = false; reals = true; arrays = false; wide = true })
        (codes "LIRA" ∷ codes "NIRA" ∷ codes "UFLIRA" ∷ codes "UFNIRA" ∷ codes "UFDTLIRA"
        ∷ codes "UFDTNIRA" ∷ []) }
    ensures bits { AreWideLogicsOf
        (record { ints = false; bits = true; reals = false; arrays = false; wide = true })
        (codes "BV" ∷ codes "UFBV" ∷ codes "UFBVDT" ∷ []) }
    ensures bits_and_ints { AreWideLogicsOf
        (record { ints = true; bits = true; reals = false; arrays = false; wide = true })
        (codes "BVLIA" ∷ codes "BVNIA" ∷ codes "UFBVLIA" ∷ codes "UFBVNIA" ∷ []) }
{}

/// The logics of the profile Wide with arrays, by their theories: these have them, and no others.
pub fn wide_logics_of_arrays_are_those_of_their_theories()
    ensures arrays { AreWideLogicsOf
        (record { ints = false; bits = false; reals = false; arrays = true; wide = true })
        (codes "AX" ∷ codes "AUF" ∷ codes "AUFDT" ∷ []) }
    ensures ints { AreWideLogicsOf
        (record { ints = true; bits = false; reals = false; arrays = true; wide = true })
        (codes "ALIA" ∷ codes "ANIA" ∷ codes "AUFLIA" ∷ codes "AUFNIA" ∷ codes "AUFDTLIA"
        ∷ codes "AUFDTNIA" ∷ []) }
    ensures reals { AreWideLogicsOf
        (record { ints = false; bits = false; reals = true; arrays = true; wide = true })
        (codes "ALRA" ∷ codes "ANRA" ∷ codes "AUFLRA" ∷ codes "AUFNRA" ∷ []) }
    ensures ints_and_reals { AreWideLogicsOf
        (record { ints = true; bits = false; reals = true; arrays = true; wide = true })
        (codes "ALIRA" ∷ codes "ANIRA" ∷ codes "AUFLIRA" ∷ codes "AUFNIRA" ∷ codes "AUFDTLIRA"
        ∷ codes "AUFDTNIRA" ∷ []) }
    ensures bits { AreWideLogicsOf
        (record { ints = false; bits = true; reals = false; arrays = true; wide = true })
        (codes "ABV" ∷ codes "AUFBV" ∷ codes "AUFBVDT" ∷ []) }
    ensures bits_and_ints { AreWideLogicsOf
        (record { ints = true; bits = true; reals = false; arrays = true; wide = true })
        (codes "ABVLIA" ∷ codes "AUFBVLIA" ∷ codes "AUFBVNIA" ∷ codes "AUFBVDTLIA"
        ∷ codes "AUFBVDTNIA" ∷ []) }
    ensures bits_and_reals { AreWideLogicsOf
        (record { ints = false; bits = true; reals = true; arrays = true; wide = true })
        (codes "ABVLRA" ∷ codes "ABVNRA" ∷ codes "AUFBVLRA" ∷ codes "AUFBVNRA" ∷ []) }
    ensures all { AreWideLogicsOf
        (record { ints = true; bits = true; reals = true; arrays = true; wide = true })
        (codes "ALL" ∷ codes "ALL_SUPPORTED" ∷ codes "AUFBVLIRA" ∷ codes "AUFBVNIRA"
        ∷ codes "AUFBVDTLIRA" ∷ codes "AUFBVDTNIRA" ∷ []) }
{}

/// The profile Base has neither reals nor arrays and is never wide; the profile Wide always is.
pub fn base_has_no_wide_names()
    ensures logics { (logic : List ℕ) (theories : Theories) → theories_named Base logic ≡ Some theories
        → (theories.reals ≡ false) × (theories.arrays ≡ false) × (theories.wide ≡ false) }
    ensures all { ((all_theories Base).reals ≡ false) × ((all_theories Base).arrays ≡ false)
        × ((all_theories Base).wide ≡ false) }
    ensures wide { (logic : List ℕ) (theories : Theories) → theories_named Wide logic ≡ Some theories
        → theories.wide ≡ true }
    ensures all_wide { (all_theories Wide).wide ≡ true }
{}

/// The profile Wide accepts each logic that the profile Base accepts, with the same integers and bit vectors.
pub fn wide_takes_the_logics_of_base()
    ensures { (logic : List ℕ) (theories : Theories) → theories_named Base logic ≡ Some theories
        → (more : Theories) × (theories_named Wide logic ≡ Some more)
        × (more.ints ≡ theories.ints) × (more.bits ≡ theories.bits) }
{}
