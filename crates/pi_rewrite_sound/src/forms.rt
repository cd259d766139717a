//! Which calls are forms of control.
ghost use Rattle.std.specs.Prelude.{◌≡◌};
ghost use Rattle.pi_meaning.specs.OverNames.Forms.{form_of as form_in_names, is_find_all as is_find_all_name, is_count_all as is_count_all_name};
ghost use Rattle.pi_rewrite_sound.specs.Shown.{form_shown};

/// A call that is a form of control, and calls nothing itself.
pub(crate) enum Form {
    Negation,
    Once,
    Assignment,
    Catch,
    ByTerm,
    Membership,
}

/// Which form a call has; `None` where it is that of a predicate.
#[tactic(auto, unfolding(pi_meaning::specs::OverNames::Forms::form_of))]
pub(crate) fn form_of(name: &str, count: usize) -> Option<Form>
    ensures { form_shown result ≡ form_in_names name.now count }
{
    if (count == 1) & (name == "not") {
        Some(Form::Negation)
    } else if (count == 1) & (name == "once") {
        Some(Form::Once)
    } else if (count == 2) & (name == ":=") {
        Some(Form::Assignment)
    } else if (count == 3) & (name == "catch") {
        Some(Form::Catch)
    } else if (1 <= count) & (count <= 8) & (name == "call") {
        Some(Form::ByTerm)
    } else if (count == 2) & (name == "in") {
        Some(Form::Membership)
    } else {
        None
    }
}

/// Whether a call as an expression is `find_all`, of an expression and a goal.
pub(crate) fn is_find_all(name: &str, count: usize) -> bool
    ensures { result ≡ is_find_all_name name.now count }
{
    (count == 2) & (name == "find_all")
}

/// Whether a call as an expression is `count_all`, of a goal.
pub(crate) fn is_count_all(name: &str, count: usize) -> bool
    ensures { result ≡ is_count_all_name name.now count }
{
    (count == 1) & (name == "count_all")
}
