//! Laws of the definition, each on a function that does nothing.
ghost use Rattle.std.specs.Prelude.{◌≡◌, ◌≢◌, ℕ, ◌+◌, ◌<◌, ◌≤◌, true, false, Option, Some, List, ◌∷◌, ◌++◌, length, take};
ghost use Rattle.std.specs.Char.{is_digit};
ghost use Rattle.pi_lex.specs.Forms.{Spells, IsDigits, IsClosed, EndsDigits, is_sign};
ghost use Rattle.pi_syntax.specs.Tokens as spec;

/// What is read between quotes, from any place on, is spelled by the characters there, up to the first quote that isn't
/// escaped.
pub fn quoted_forms()
    ensures found { (quote place : ℕ) (text : List ℕ) (at : ℕ) → spec.closing_place quote false place text ≡ Some at
        → IsClosed quote place text at }
    ensures all { (quote place : ℕ) (body meaning rest : List ℕ) → quote ≢ spec.backslash → Spells quote body meaning
        → (spec.closing_place quote false place (body ++ quote ∷ rest) ≡ Some (place + length body))
        × (spec.unescaped false body ≡ meaning) }
{}

/// What is read as digits, from any place on, is a digit or more with at most one `_` between two of them, as many as
/// there are.
pub fn digit_forms()
    ensures found { (radix place : ℕ) (text : List ℕ) → radix ≤ 36 → is_digit (spec.first text) radix ≡ true
        → EndsDigits radix place text (spec.digits_end radix place text) }
    ensures all { (radix place : ℕ) (digits rest : List ℕ) → IsDigits radix digits → spec.goes_on radix rest ≡ false
        → spec.digits_end radix place (digits ++ rest) ≡ place + length digits }
{}

/// The sign that is read is one of the signs, and each sign that fits is at most as long.
pub fn longest_sign()
    ensures fits { (text : List ℕ) → 0 < spec.sign_len text → is_sign (take (spec.sign_len text) text) ≡ true }
    ensures longest { (text sign : List ℕ) → is_sign sign ≡ true → spec.begins_with text sign ≡ true → length sign ≤ spec.sign_len text }
{}

/// Each text has tokens, and then its end or a fault.
pub fn every_text_lexes()
    ensures { (text : List ℕ) → (tokens : List spec.Located) × (fault : Option spec.Fault) × spec.Lexes text tokens fault }
{}
