//! The tables of a script and of a model of its names, in the form that a machine reads. This file evaluates
//! nothing.

ghost use Rattle.std.specs.Prelude.{◌≡◌, length};
ghost use Rattle.smt_values.specs.ElementNumbers.{numbered_in};
ghost use Rattle.smt_machine.specs.Tables.{arounds_of, model_count, nodes_of};
ghost use Rattle.smt_terms.specs.Library.{StandsFor, element_names_of, held_terms_of, terms_of};
ghost use Rattle.smt_terms.specs.Signature.{Signature};
ghost use Rattle.smt_terms.specs.TermsOf.{AreTermsOf};
ghost use Rattle.smt_eval.specs.NodeValues.{arounds_over, nodes_over};

use smt_machine::Tables;
use smt_nodes::TermId;
use smt_terms::Library;
use smt_terms::laws::transient_terms_change_no_names;

/// The tables of a script and of a model's definitions, where the declared names have these bodies.
pub(crate) fn tables<'a>(
    script: &'a Library<'a>,
    definitions: &'a Library<'a>,
    declared: &'a [TermId],
) -> Tables<'a>
    ensures nodes { nodes_of result
        ≡ nodes_over (numbered_in (element_names_of definitions.now)) (held_terms_of definitions.now)
        (terms_of script.now) declared.now }
    ensures arounds { arounds_of result ≡ arounds_over (held_terms_of definitions.now) (terms_of script.now) }
    ensures count { model_count result ≡ length (held_terms_of definitions.now).rows }
    ensures named { (s : Signature) → StandsFor script.now s → AreTermsOf (terms_of script.now) s }
{
    transient_terms_change_no_names();
    Tables {
        model: definitions.nodes(),
        model_bodies: definitions.bodies(),
        script: script.nodes(),
        transient: script.transient(),
        script_bodies: script.bodies(),
        declared,
    }
}
