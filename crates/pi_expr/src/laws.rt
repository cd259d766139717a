//! Laws of the reader's steps.
ghost use Rattle.std.specs.Prelude.{List, map};
ghost use Rattle.pi_syntax.specs.ExpTree.{ExpTree};
ghost use Rattle.pi_syntax.specs.Grammar.{HasExp};
ghost use Rattle.pi_syntax.specs.Terminals.{terminal};
ghost use Rattle.pi_syntax.specs.Tokens.{Token};
ghost use Rattle.pi_expr_phrases.specs.Machine.{begin, Runs};

/// The steps of the reader, taken on trees, end with a tree exactly where the grammar gives it to the tokens.
pub fn steps_follow_the_grammar()
    ensures all { (tokens : List Token) → (e : ExpTree) → HasExp tokens e → Runs (begin (map terminal tokens)) e }
    ensures only { (tokens : List Token) → (e : ExpTree) → Runs (begin (map terminal tokens)) e → HasExp tokens e }
{}
