//! A law of the definitions, on a function that does nothing.
ghost use Rattle.pi_syntax.specs.Prelude.{prelude_text};
ghost use Rattle.pi_meaning.specs.OverNames.Prelude.{prelude};
ghost use Rattle.pi_prog.specs.ReadsAs.{ReadsAs};

/// The prelude's text reads as its rules.
pub fn prelude_is_its_text()
    ensures { ReadsAs prelude_text prelude }
{}
