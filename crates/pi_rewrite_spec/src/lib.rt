//! What programs and goals are lowered to, as definitions, with lemmas that the code that makes it needs; no code that runs.
#![tactic(auto)]
