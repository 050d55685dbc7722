//! Examples of texts with their trees and faults, as theorems about the definitions. Each is a clause of a
//! function that does nothing.

ghost use Rattle.std.specs.Prelude.{◌≡◌, ◌<◌, ◌+◌, ℕ, List, [], ◌∷◌, ◌++◌, codes, true, false, Some, None};
ghost use Rattle.std.specs.Prelude.{replicate};
ghost use Rattle.smt_text.specs.Grammar.{max_depth, Forest};
ghost use Rattle.smt_text.specs.Reading.{Reads};
ghost use Rattle.smt_trees.specs.Sexp.{Atom, Reserved, Items, Nil, Cons, Symbol, Numeral, Decimal};
ghost use Rattle.smt_trees.specs.Sexp.{Hexadecimal, Binary, Text, Keyword};
ghost use Rattle.smt_faults.specs.declared.text_flaw.TextFlaw.TheVariants.{Byte, Deep, End};
ghost use Rattle.smt_trees.specs.declared.reserved.Word.TheVariants.{Assert};

/// Texts and their trees.
pub fn forests()
    ensures empty { (most : ℕ) → Forest most [] Nil }
    ensures two_symbols { Forest max_depth (codes "a b")
        (Cons (Atom Symbol (codes "a")) (Cons (Atom Symbol (codes "b")) Nil)) }
    ensures one_symbol { Forest max_depth (codes "ab")
        (Cons (Atom Symbol (codes "a")) (Cons (Atom Symbol (codes "b")) Nil)) → ⊥ }
    ensures reserved { Forest max_depth (codes "(assert)") (Cons (Items (Cons (Reserved Assert) Nil)) Nil) }
    ensures no_symbol { Forest max_depth (codes "(assert)")
        (Cons (Items (Cons (Atom Symbol (codes "assert")) Nil)) Nil) → ⊥ }
    ensures quoted { Forest max_depth (codes "|assert|") (Cons (Atom Symbol (codes "assert")) Nil) }
    ensures quoted_empty { Forest max_depth (codes "||") (Cons (Atom Symbol []) Nil) }
    ensures quoted_space { Forest max_depth (codes "(|a b| x)")
        (Cons (Items (Cons (Atom Symbol (codes "a b")) (Cons (Atom Symbol (codes "x")) Nil))) Nil) }
    ensures numbers { Forest max_depth (codes "0 10 0.50 #xAf0 #b011")
        (Cons (Atom Numeral (codes "0"))
        (Cons (Atom Numeral (codes "10"))
        (Cons (Atom Decimal (codes "0.50"))
        (Cons (Atom Hexadecimal (codes "Af0")) (Cons (Atom Binary (codes "011")) Nil))))) }
    ensures keyword { Forest max_depth (codes ":1a(:x)")
        (Cons (Atom Keyword (codes "1a")) (Cons (Items (Cons (Atom Keyword (codes "x")) Nil)) Nil)) }
{}

/// String literals. A quote is byte 34.
pub fn texts()
    ensures empty { Forest max_depth (34 ∷ 34 ∷ []) (Cons (Atom Text []) Nil) }
    ensures one_quote { Forest max_depth (34 ∷ 97 ∷ 34 ∷ 34 ∷ 98 ∷ 34 ∷ [])
        (Cons (Atom Text (97 ∷ 34 ∷ 98 ∷ [])) Nil) }
    ensures no_two { Forest max_depth (34 ∷ 97 ∷ 34 ∷ 34 ∷ 98 ∷ 34 ∷ [])
        (Cons (Atom Text (codes "a")) (Cons (Atom Text (codes "b")) Nil)) → ⊥ }
    ensures any_encoding { Forest max_depth (34 ∷ 92 ∷ 195 ∷ 164 ∷ 10 ∷ 34 ∷ [])
        (Cons (Atom Text (92 ∷ 195 ∷ 164 ∷ 10 ∷ [])) Nil) }
    ensures delete { Reads max_depth true (34 ∷ 127 ∷ 34 ∷ []) Nil (Some (Byte 1)) }
    ensures neighbour { Reads max_depth true (34 ∷ 97 ∷ 34 ∷ 98 ∷ []) Nil (Some (Byte 3)) }
    ensures open_end { Reads max_depth true (34 ∷ 97 ∷ []) Nil (Some (End 2)) }
    ensures may_be_first_of_two { Reads max_depth false (34 ∷ 97 ∷ 34 ∷ []) Nil None }
    ensures complete { Reads max_depth false (34 ∷ 97 ∷ 34 ∷ 32 ∷ []) (Cons (Atom Text (codes "a")) Nil) None }
{}

/// Comments. Byte 10 is a line feed, 13 a carriage return.
pub fn comments()
    ensures ends_with_text { Forest max_depth (codes "a ; b") (Cons (Atom Symbol (codes "a")) Nil) }
    ensures after_atom { Forest max_depth (codes "a;b") (Cons (Atom Symbol (codes "a")) Nil) }
    ensures line_feed { Forest max_depth (codes "a;" ++ 10 ∷ 98 ∷ [])
        (Cons (Atom Symbol (codes "a")) (Cons (Atom Symbol (codes "b")) Nil)) }
    ensures carriage_return { Forest max_depth (codes "a;" ++ 13 ∷ 98 ∷ [])
        (Cons (Atom Symbol (codes "a")) (Cons (Atom Symbol (codes "b")) Nil)) }
    ensures any_byte { Forest max_depth (59 ∷ 0 ∷ 127 ∷ 255 ∷ 10 ∷ []) Nil }
    ensures closes_nothing { Reads max_depth true (codes "(a ;)") Nil (Some (End 5)) }
    ensures ends_an_atom { Reads max_depth false (codes "a;") (Cons (Atom Symbol (codes "a")) Nil) None }
{}

/// Texts and their faults, with what is read before the fault. All texts but two have ended.
pub fn faults()
    ensures closed { Reads max_depth true (codes "sat)") Nil (Some (Byte 3)) }
    ensures closed_later { Reads max_depth true (codes "sat )") (Cons (Atom Symbol (codes "sat")) Nil)
        (Some (Byte 4)) }
    ensures closed_quoted { Reads max_depth true (codes "|sat|)") (Cons (Atom Symbol (codes "sat")) Nil)
        (Some (Byte 5)) }
    ensures unclosed { Reads max_depth true (codes "(a") Nil (Some (End 2)) }
    ensures may_close { Reads max_depth false (codes "(a") Nil None }
    ensures numeral { Reads max_depth true (codes "1a") Nil (Some (Byte 1)) }
    ensures zero { Reads max_depth true (codes "01") Nil (Some (Byte 1)) }
    ensures point { Reads max_depth true (codes "1.") Nil (Some (End 2)) }
    ensures no_fraction { Reads max_depth true (codes "1.)") Nil (Some (Byte 2)) }
    ensures after_a_tree { Reads max_depth true (codes "(a) 01")
        (Cons (Items (Cons (Atom Symbol (codes "a")) Nil)) Nil) (Some (Byte 5)) }
    ensures after_a_quoted_symbol { Reads max_depth true (codes "|a|b") (Cons (Atom Symbol (codes "a")) Nil)
        (Some (Byte 3)) }
    ensures backslash { Reads max_depth true (124 ∷ 97 ∷ 92 ∷ 98 ∷ 124 ∷ []) Nil (Some (Byte 2)) }
    ensures no_digit { Reads max_depth true (codes "#xg") Nil (Some (Byte 2)) }
    ensures no_binary_digit { Reads max_depth true (codes "#b2") Nil (Some (Byte 2)) }
    ensures mark_alone { Reads max_depth true (codes "#x") Nil (Some (End 2)) }
    ensures mark_before_list { Reads max_depth true (codes "#x(") Nil (Some (Byte 2)) }
    ensures colon_before_list { Reads max_depth true (codes ":(") Nil (Some (Byte 1)) }
    ensures byte_order_mark { Reads max_depth true (239 ∷ 187 ∷ 191 ∷ []) Nil (Some (Byte 0)) }
    ensures told_at_once { Reads max_depth false (codes "01") Nil (Some (Byte 1)) }
{}

/// Lists that nest as deep as they may, and deeper: texts of open parentheses.
pub fn nesting()
    ensures at_the_limit { Reads max_depth true (replicate 1000 40) Nil (Some (End 1000)) }
    ensures past_the_limit { Reads max_depth true (replicate 1001 40) Nil (Some (Deep 1000)) }
    ensures at_any_limit { (most : ℕ) → 0 < most → Reads most true (replicate most 40) Nil (Some (End most)) }
    ensures past_any_limit { (most : ℕ) → Reads most true (replicate (most + 1) 40) Nil (Some (Deep most)) }
    ensures no_token_at_any_limit { (most : ℕ)
        → Reads most true (replicate most 40 ++ codes "#x(") Nil (Some (Byte (most + 2))) }
{}
