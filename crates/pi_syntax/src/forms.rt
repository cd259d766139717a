//! The names of goals that call nothing themselves.
ghost use Rattle.std.specs.Prelude.{◌≡◌};
ghost use Rattle.pi_syntax.specs.Forms.{is_form};

/// Whether a goal with this name is `not`, `once`, `:=` or `in`, which call nothing themselves (own).
pub fn is_form(name: &str, arity: usize) -> bool
    ensures { result ≡ is_form name.now arity }
{
    match arity {
        1 => name == "not" || name == "once",
        2 => name == ":=" || name == "in",
        _ => false,
    }
}
