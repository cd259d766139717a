//! Laws of the grammar of expressions.
ghost use Rattle.pi_syntax.specs.Grammar.{HasOneExp};
ghost use Rattle.pi_syntax.specs.Crowding.{ReadIsOne, TooDeepIsNoNone};

/// Tokens have at most one expression. So they are an expression that is not too deep, or they are too deep or crowded, or
/// they are no expression, and no two of these.
pub fn tokens_have_one_expression()
    ensures one { HasOneExp }
    ensures read { ReadIsOne }
    ensures too_deep { TooDeepIsNoNone }
{}
