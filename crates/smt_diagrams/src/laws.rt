//! What follows from the definitions.

ghost use Rattle.std.specs.Prelude.{◌≡◌, ◌≢◌, ◌++◌, ℕ, List};
ghost use Rattle.smt_diagrams.specs.Diagram.{AreAlike, AreDistinct, Grows, IsDiagram, IsWritten, element_at};
ghost use Rattle.smt_diagrams.specs.declared.diagram.Diagram.{Diagram};
ghost use Rattle.smt_diagrams.specs.declared.diagram.Fork.{Fork};

/// One function is one diagram.
pub fn functions_have_one_diagram()
    ensures { (forks : List Fork) (n : ℕ) (a b : Diagram) → AreDistinct forks
        → IsDiagram forks n a → IsDiagram forks n b
        → AreAlike n (element_at forks n a) (element_at forks n b) → a ≡ b }
{}

/// A diagram, and what it has, stay as forks are added.
pub fn diagrams_stay()
    ensures { (forks more : List Fork) (n : ℕ) (d : Diagram) → IsDiagram forks n d
        → IsDiagram (forks ++ more) n d × ((i : ℕ) → element_at (forks ++ more) n d i ≡ element_at forks n d i) }
{}

/// To store what is there changes nothing.
pub fn what_is_there_changes_nothing()
    ensures { (old new : List Fork) (n : ℕ) (d made : Diagram) (number : ℕ) → AreDistinct new → Grows old new
        → IsDiagram old n d → IsWritten old new n d number (element_at old n d number) made → made ≡ d }
{}

/// Of two stores at one number the later counts.
pub fn the_later_store_counts()
    ensures { (first second third last : List Fork) (n : ℕ) (d once twice alone : Diagram) (number e f : ℕ)
        → AreDistinct last → Grows first second → Grows second third → Grows third last → IsDiagram first n d
        → IsWritten first second n d number e once → IsWritten second third n once number f twice
        → IsWritten third last n d number f alone → twice ≡ alone }
{}

/// The order of stores at two numbers does not matter.
pub fn stores_at_two_numbers_commute()
    ensures { (first second third fourth last : List Fork) (n : ℕ) (d once twice other both : Diagram)
        (j k e f : ℕ) → j ≢ k → AreDistinct last → Grows first second → Grows second third → Grows third fourth
        → Grows fourth last → IsDiagram first n d
        → IsWritten first second n d j e once → IsWritten second third n once k f twice
        → IsWritten third fourth n d k f other → IsWritten fourth last n other j e both → twice ≡ both }
{}
