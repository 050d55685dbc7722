//! The names in force, in order of insertion, the place of each, and the nodes of the terms that were checked over
//! them. This file checks no term: `library/checker` does.

ghost use Rattle.std.specs.Prelude.{◌≡◌, length, bytes_eq};
ghost use Rattle.std.proofs.Props.{props};
ghost use Rattle.smt_terms.specs.Ends.{ends_from};

pub use marks::Mark;

mod arguments;
mod assertions;
mod binders;
mod blamed_commands;
mod blamed_items;
mod blamed_names;
mod blamed_parts;
mod blames;
mod checker;
mod constants;
mod declared_sorts;
mod definitions;
mod draft;
mod element_names;
mod elements;
mod frames;
mod freshness;
mod items;
mod marks;
mod params;
mod repeated;
mod scope;
mod stops;
mod told;
mod transient;
mod walk;
mod whole_terms;

use crate::labels::Labels;
use crate::library::arguments::Arguments;
use crate::library::element_names::ElementNames;
use crate::sorts::SortNames;
use smallvec::SmallVec;
use smt_faults::{Memory, TermFault};
use smt_names::NameMap;
use smt_nodes::{Node, Nodes, TermId};
use smt_theory::{Sort, Theories};
use smt_trees::{Tree, Trees};
use std::alloc::Global;

// The most names among which a search compares a name with each one.
const FEW: usize = 8;

/// The most bytes of a defined name that is stored without an allocation of its own.
pub const SHORT: usize = 16;

/// What a name means: a function of this rank, declared or defined at this place.
#[derive(Drop)]
struct Entry {
    parameters: Vec<Sort>,
    sort: Sort,
    place: Found,
}

/// The place of a name, among the declared names or among the definitions.
#[derive(Clone, Copy, Debug, PartialEq, Eq)]
pub enum Found {
    /// A declared name: its place in `Library::declared`, from 0.
    Declared(usize),
    /// A defined name: its place in `Library::definitions`, from 0.
    Defined(usize),
}

/// A declared name (SMT-LIB 2.6, section 4.2.3).
#[derive(Drop)]
pub struct Declared {
    /// Its place among all names, from 0, as `Library::name` accepts it.
    pub name: usize,
    /// The sorts of its parameters, in order; a constant has none.
    pub params: Vec<Sort>,
    /// The sort of its result.
    pub result: Sort,
    /// The number of its command, from 1.
    pub command: u64,
}

/// A defined name (SMT-LIB 2.6, section 4.2.3); a label is one too (section 3.6.5), without parameters. The node of
/// its body is at the same place in `Library::bodies`.
#[derive(Drop)]
pub struct Definition {
    /// The bytes of its name, without bars.
    pub name: SmallVec<u8, SHORT>,
    /// Its parameters in order: the bytes of each name, without bars, and its sort.
    pub params: Vec<(Vec<u8>, Sort)>,
    /// The sort of its result, and of its body.
    pub result: Sort,
}

/// The names of a signature in order of insertion, abbreviations of sorts, and terms over the names. No name
/// occurs twice.
#[derive(Drop)]
pub struct Library<'s> {
    alloc: Global,
    sorts: SortNames,
    /// What terms may name elements by, in a library for a model; nothing in one for a script.
    elements: Option<ElementNames<'s>>,
    names: NameMap<Entry>,
    declared: Vec<Declared>,
    definitions: Vec<Definition>,
    bodies: Vec<TermId>,
    /// For each definition, the number of nodes that its body and the bodies before it need.
    ends: Vec<usize>,
    nodes: Nodes,
    transient: Nodes,
    /// Empty between calls; the library keeps it for its memory.
    arguments: Arguments,
    ghost paired: { length bodies.items ≡ length definitions.items } by { Prim.hlevel props },
    ghost ended: { ends.items ≡ ends_from 0 bodies.items } by { Prim.hlevel props },
}

impl Library<'_> {
    ghost use Rattle.smt_names.specs.Entries.{entries_of};
    ghost use Rattle.std.specs.Prelude.{◌≡◌, ◌<◌, ◌∷◌, ◌++◌, [], map, slice_get, option_copied, option_map};
    ghost use Rattle.std.specs.Prelude.{Some, None, Ok, Err, MatchOption, MatchResult, OnOk, OnErr, IfOk};
    ghost use Rattle.std.specs.Prelude.{IfErr, false};
    ghost use Rattle.smt_nodes.specs.Node.{Row};
    ghost use Rattle.smt_nodes.specs.NodeView.{node_view};
    ghost use Rattle.smt_nodes.specs.Nodes as nodes;
    ghost use Rattle.smt_nodes.specs.Nodes.{rows_of};
    ghost use Rattle.smt_theory.specs.Operators.{is_plain_operator};
    ghost use Rattle.smt_trees.specs.Sexp.{Sexp};
    ghost use Rattle.smt_trees.specs.View.{sexp_of, sexps_of};
    ghost use Rattle.smt_theory.specs.Words.{look_up};
    ghost use Rattle.smt_terms.specs.Checking.{sort_in};
    ghost use Rattle.smt_terms.specs.Elements.{element_among};
    ghost use Rattle.smt_terms.specs.Contents.{Extends, contents_of, declaration_view};
    ghost use Rattle.smt_terms.specs.Internal.LibraryView.{names_of_library, places_of_library, rank_of};
    ghost use Rattle.smt_terms.specs.Internal.LibraryView.{ranks_of_library, sort_names};
    ghost use Rattle.smt_terms.specs.Internal.TableView.{head_of, heads_of_library};
    ghost use Rattle.smt_terms.specs.Library.{AreDefinitions, IsFound, IsTerm, IsTermOf, IsUnchanged};
    ghost use Rattle.smt_terms.specs.Library.{StandsFor, declarations_from, terms_of, transient_of};
    ghost use Rattle.smt_terms.specs.Library.{defined_among, definitions_of, element_names_of, name_count};
    ghost use Rattle.smt_terms.specs.Signature as signature;
    ghost use Rattle.smt_terms.specs.Declarations.{abbreviated_in, declaration, declared_in, rank_named};
    ghost use Rattle.smt_terms.specs.Declarations.{sort_declared_in};
    ghost use Rattle.smt_terms.specs.Signature.{Signature, entry_named, names_of, no_names, sort_names_of};
    ghost use Rattle.smt_terms.specs.Signature.{with_abbreviation, with_entry};
    ghost use Rattle.smt_terms.specs.declared.named_sort.NamedSort.{NamedSort};
    ghost use Rattle.smt_faults.specs.Outcome.{IsOutcome, Tells};

    /// A library of these theories, without names and terms.
    pub fn new(alloc: Global, theories: Theories) -> Self
        ensures stands { StandsFor result (no_names theories) }
        ensures empty { (contents_of result).rows ≡ [] }
        ensures transient { transient_of result ≡ [] }
    {
        Library {
            alloc,
            sorts: SortNames::new(alloc, theories),
            elements: None,
            names: NameMap::new(alloc),
            declared: Vec::new(alloc),
            definitions: Vec::new(alloc),
            bodies: Vec::new(alloc),
            ends: Vec::new(alloc),
            nodes: Nodes::new(alloc),
            transient: Nodes::new(alloc),
            arguments: Arguments::new(alloc),
        }
    }

    /// The allocator of the library's memory.
    pub fn alloc(&self) -> Global {
        self.alloc
    }

    /// The theories of the signature.
    pub fn theories(&self) -> Theories
        ensures { (s : Signature) → StandsFor self.now s → result ≡ s.theories }
    {
        self.sorts.theories
    }

    /// The declared names, in order of insertion.
    pub fn declared(&self) -> &[Declared]
        ensures { (s : Signature) → StandsFor self.now s
            → map declaration_view result.now ≡ declarations_from 0 s.entries }
    {
        self.declared.as_slice()
    }

    /// The definitions, with those of labels, in order of insertion.
    pub fn definitions(&self) -> &[Definition]
        ensures stands { (s : Signature) → StandsFor self.now s
            → AreDefinitions result.now (defined_among s.entries) }
        ensures view { result.now ≡ definitions_of self.now }
    {
        self.definitions.as_slice()
    }

    /// The bytes of the name at this place among all names, from 0. The place is less than the number of names.
    pub fn name(&self, place: usize) -> &[u8]
        requires { place < name_count self.now }
        ensures { (s : Signature) → StandsFor self.now s
            → (e : signature.Entry) × (slice_get s.entries place ≡ Some e) × (result.now ≡ e.name) }
    {
        self.get_index(place).0
    }

    /// The place of a name among the declared names or the definitions; `None` if the name is not in force.
    pub fn find(&self, name: &[u8]) -> Option<Found>
        ensures { (s : Signature) → StandsFor self.now s
            → MatchOption result (entry_named s.entries name.now ≡ None)
            (λ found. (e : signature.Entry) × (entry_named s.entries name.now ≡ Some e)
            × IsFound found s.entries e) }
    {
        self.place_of(name)
    }

    /// Declares a name by the command of this number, from 1 (SMT-LIB 2.6, section 4.2.3), with the sorts of its
    /// parameters and of its result.
    ///
    /// It refuses, in this order: a name that is in use or is a plain operator's (`NotFresh`); the first tree of a
    /// parameter that names no sort, with its fault; a tree of the result that names no sort, with its fault. Then,
    /// and where memory is refused (`Memory`), nothing changes.
    #[tactic(auto, using(crate::proofs::ContentsLemmas::extends_itself))]
    pub fn declare(
        &mut self,
        command: u64,
        name: &[u8],
        params: Trees<'_>,
        sort: Tree<'_>,
    ) -> Result<(), TermFault>
        ensures declared { OnOk result ((s : Signature) → StandsFor self.old s → (e : signature.Entry)
            × (declared_in s command name.now (sexps_of params.entry) (sexp_of sort.entry) ≡ Ok e)
            × StandsFor self.new (with_entry s e)) }
        ensures refused { IfErr result (λ fault. (s : Signature) → StandsFor self.old s
            → Tells (declared_in s command name.now (sexps_of params.entry) (sexp_of sort.entry)) fault) }
        ensures unchanged { OnErr result (IsUnchanged self.old self.new) }
        ensures restored { OnErr result (contents_of self.new ≡ contents_of self.old) }
        ensures grown { Extends (contents_of self.old) (contents_of self.new) }
        ensures transient { transient_of self.new ≡ transient_of self.old }
    {
        if self.is_taken(name) {
            return Err(TermFault::NotFresh);
        }
        let declared = self.declaration(command, params, sort)?;
        Ok(self.add_declared(name, declared)?)
    }

    /// Makes a name abbreviate the sort of a tree (SMT-LIB 2.6, section 4.2.3, `define-sort` without
    /// parameters). The name means that sort, whatever comes later.
    ///
    /// It refuses, in this order: a name that stands for a sort, `Bool` and `Int`, in the wide profile also `Real` and
    /// `Array` (`NotFresh`); a tree that names no sort, with its fault. Then, and where memory is refused (`Memory`),
    /// nothing changes.
    pub fn abbreviate(&mut self, name: &[u8], sort: Tree<'_>) -> Result<(), TermFault>
        ensures abbreviated { OnOk result ((s : Signature) → StandsFor self.old s → (found : NamedSort)
            × (abbreviated_in (sort_names_of s) name.now (sexp_of sort.entry) ≡ Ok found)
            × StandsFor self.new (with_abbreviation s name.now found)) }
        ensures refused { IfErr result (λ fault. (s : Signature) → StandsFor self.old s
            → Tells (abbreviated_in (sort_names_of s) name.now (sexp_of sort.entry)) fault) }
        ensures unchanged { OnErr result (IsUnchanged self.old self.new) }
        ensures restored { OnErr result (contents_of self.new ≡ contents_of self.old) }
        ensures grown { Extends (contents_of self.old) (contents_of self.new) }
        ensures transient { transient_of self.new ≡ transient_of self.old }
    {
        self.sorts.abbreviate(self.alloc, name, sort)
    }

    /// Declares a sort by the command of this number, from 1 (SMT-LIB 2.6, section 4.2.3, `declare-sort` without
    /// parameters). No other command declares the same sort, even by the same name.
    ///
    /// It refuses a name that stands for a sort, `Bool` and `Int`, in the wide profile also `Real` and `Array`
    /// (`NotFresh`). Then, and where memory is refused (`Memory`), nothing changes.
    pub fn declare_sort(&mut self, command: u32, name: &[u8]) -> Result<(), TermFault>
        ensures declared { OnOk result ((s : Signature) → StandsFor self.old s → (found : NamedSort)
            × (sort_declared_in (sort_names_of s) command name.now ≡ Ok found)
            × StandsFor self.new (with_abbreviation s name.now found)) }
        ensures refused { IfErr result (λ fault. (s : Signature) → StandsFor self.old s
            → Tells (sort_declared_in (sort_names_of s) command name.now) fault) }
        ensures unchanged { OnErr result (IsUnchanged self.old self.new) }
        ensures restored { OnErr result (contents_of self.new ≡ contents_of self.old) }
        ensures grown { Extends (contents_of self.old) (contents_of self.new) }
        ensures transient { transient_of self.new ≡ transient_of self.old }
    {
        self.sorts.declare(command, name)
    }

    /// Checks a term without labels over the names (SMT-LIB 2.6, sections 3.6 and 5.2). It returns the number of the
    /// term's node and its sort, or its first fault; then nothing changes.
    #[tactic(auto, using(crate::proofs::ContentsLemmas::extends_itself))]
    pub fn check(&mut self, term: Tree<'_>) -> Result<(TermId, Sort), TermFault>
        ensures answer { (s : Signature) → StandsFor self.old s
            → MatchResult result (λ p. (sort_in (names_of s) [] (sexp_of term.entry) ≡ Ok p.1)
            × IsTermOf (contents_of self.new) p.0 (sexp_of term.entry))
            (λ fault. Tells (sort_in (names_of s) [] (sexp_of term.entry)) fault) }
        ensures kept { IsUnchanged self.old self.new }
        ensures restored { OnErr result (contents_of self.new ≡ contents_of self.old) }
        ensures grown { Extends (contents_of self.old) (contents_of self.new) }
        ensures transient { transient_of self.new ≡ transient_of self.old }
    {
        let (checked, _) = self.check_whole(&[], Labels::refused(self.alloc), term)?;
        Ok((checked.node, checked.sort))
    }

    /// The node of a term of this library; the term may be a transient one.
    pub fn node(&self, term: TermId) -> Node<'_>
        requires { (t : Sexp) × IsTerm self.now term t }
        ensures { (row : Row) × (slice_get (terms_of self.now).rows term ≡ Some row)
            × (node_view result ≡ row.node) }
    {
        match self.node_at(term.number()) {
            Some(node) => node,
            None => unreachable!(),
        }
    }

    // The node that has this number, if there is one.
    fn node_at(&self, number: usize) -> Option<Node<'_>>
        ensures { option_map node_view result
            ≡ option_map (λ row. row.node) (slice_get (terms_of self.now).rows number) }
    {
        let count = self.nodes.len();
        if number < count {
            self.nodes.get(number)
        } else {
            self.transient.get(number - count)
        }
    }

    /// The nodes of all terms except the transient ones. The place of a node, from 0, is its number.
    pub fn nodes(&self) -> &Nodes
        ensures rows { rows_of result.now ≡ (contents_of self.now).rows }
        ensures names { nodes.names_of result.now ≡ element_names_of self.now }
    {
        &self.nodes
    }

    /// The nodes of the definitions' bodies, in the order of `Library::definitions`.
    pub fn bodies(&self) -> &[TermId]
        ensures { result.now ≡ (terms_of self.now).bodies }
    {
        self.bodies.as_slice()
    }

    // What a name means, if it is in force.
    fn get(&self, name: &[u8]) -> Option<&Entry>
        ensures ranked { option_map (λ e. rank_of e.now) result
            ≡ look_up (names_of_library self.now).ranks name.now }
        ensures placed { option_map (λ e. e.now.place) result
            ≡ look_up (places_of_library self.now) name.now }
    {
        if self.names.len() > FEW {
            self.names.get(name)
        } else {
            self.get_among_few(name)
        }
    }

    // What a name means, found by comparing it with one name after another: for few names that costs less than a hash.
    #[inline(never)]
    fn get_among_few(&self, name: &[u8]) -> Option<&Entry>
        ensures { option_copied result
            ≡ look_up (entries_of self.now.names) name.now }
    {
        for place in 0..self.names.len() {
            let (key, entry) = self.names.get_index(place).unwrap();
            if name == key {
                return Some(entry);
            }
        }
        None
    }

    // The place of a name among the declared names or the definitions, if it is in force.
    fn place_of(&self, name: &[u8]) -> Option<Found>
        ensures { result ≡ look_up (places_of_library self.now) name.now }
    {
        match self.get(name) {
            Some(entry) => Some(entry.place),
            None => None,
        }
    }

    // The name at this place among all names, from 0, and what it means.
    fn get_index(&self, place: usize) -> (&[u8], &Entry)
        requires { place < name_count self.now }
        ensures { slice_get (ranks_of_library self.now) place ≡ Some (result.0.now, rank_of result.1.now) }
    {
        self.names.get_index(place).unwrap()
    }

    // The declaration of the next name by the command of this number, or the first fault of a tree of a sort.
    fn declaration(
        &self,
        command: u64,
        params: Trees<'_>,
        sort: Tree<'_>,
    ) -> Result<Declared, TermFault>
        ensures rank { IsOutcome (λ d. record { parameters = d.params.items; sort = d.result })
            (rank_named (sort_names self.now.sorts) (sexps_of params.entry) (sexp_of sort.entry)) result }
        ensures next { IfOk result (λ d. (d.command ≡ command) × (d.name ≡ name_count self.now)) }
    {
        let params = self.sorts.sorts_of(self.alloc, params)?;
        let result = self.sorts.sort_of(self.alloc, sort)?;
        Ok(Declared {
            name: self.names.len(),
            params,
            result,
            command,
        })
    }

    // Adds a declared name at the end; where memory is refused, it changes nothing.
    #[tactic(auto, using(crate::proofs::ContentsLemmas::extends_itself))]
    fn add_declared(&mut self, name: &[u8], declared: Declared) -> Result<(), Memory>
        requires absent { look_up (names_of_library self.old).ranks name.now ≡ None }
        requires apart { element_among (names_of_library self.old).elements name.now ≡ None }
        requires free { is_plain_operator self.old.sorts.theories name.now ≡ false }
        requires next { declared.name ≡ name_count self.old }
        ensures added { OnOk result ((s : Signature) → StandsFor self.old s
            → StandsFor self.new (with_entry s
            (declaration name.now declared.command
            (record { parameters = declared.params.items; sort = declared.result })))) }
        ensures unchanged { OnErr result (IsUnchanged self.old self.new) }
        ensures restored { OnErr result (contents_of self.new ≡ contents_of self.old) }
        ensures grown { Extends (contents_of self.old) (contents_of self.new) }
        ensures transient { self.new.transient ≡ self.old.transient }
    {
        let entry = Entry {
            parameters: Vec::from_slice(self.alloc, declared.params.as_slice())?,
            sort: declared.result,
            place: Found::Declared(self.declared.len()),
        };
        self.declared.push(declared)?;
        match self.insert(name, entry) {
            Ok(()) => Ok(()),
            Err(fault) => {
                let _ = self.declared.pop();
                Err(fault)
            }
        }
    }

    // Adds a name at the end, without its declaration or definition; where memory is refused, it changes no name.
    fn insert(&mut self, name: &[u8], entry: Entry) -> Result<(), Memory>
        requires { look_up (names_of_library self.old).ranks name.now ≡ None }
        ensures ranks { OnOk result
            (ranks_of_library self.new ≡ ranks_of_library self.old ++ (name.now, rank_of entry) ∷ []) }
        ensures heads { OnOk result
            (heads_of_library self.new ≡ heads_of_library self.old ++ (name.now, head_of entry) ∷ []) }
        ensures unchanged { OnErr result
            ((ranks_of_library self.new ≡ ranks_of_library self.old)
            × (heads_of_library self.new ≡ heads_of_library self.old)) }
        ensures sorts { self.new.sorts ≡ self.old.sorts }
        ensures elements { self.new.elements ≡ self.old.elements }
        ensures declared { self.new.declared.items ≡ self.old.declared.items }
        ensures definitions { self.new.definitions.items ≡ self.old.definitions.items }
        ensures bodies { self.new.bodies.items ≡ self.old.bodies.items }
        ensures nodes { self.new.nodes ≡ self.old.nodes }
        ensures transient { self.new.transient ≡ self.old.transient }
    {
        self.names.insert(name, entry)
    }
}
