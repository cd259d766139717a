//! Laws of terms: what stands in them.
ghost use Rattle.pi_terms.specs.Tree.{SubtermForEachCell};
ghost use Rattle.pi_terms.specs.Variables.{VariablesAreThoseThatOccur, VariablesStandOnce, GroundHasNoVariable};

/// A term has as many terms in it as it has cells. Its variables are those that occur in it, each once, and it is ground
/// exactly where none occurs.
pub fn terms_have_parts()
    ensures subterms { SubtermForEachCell }
    ensures variables { VariablesAreThoseThatOccur }
    ensures once { VariablesStandOnce }
    ensures ground { GroundHasNoVariable }
{}
