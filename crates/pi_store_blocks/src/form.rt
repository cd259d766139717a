//! What a word of a region is by itself.
ghost use Rattle.std.specs.Prelude.{◌≡◌, ◌<◌, ◌^◌, ℕ, ℤ, pos, negsuc, neg_ℤ, ◌+ℤ◌, ◌-ℤ◌, ◌≤ℤ◌, ◌<ℤ◌, IsTrue, ◌↔◌};
ghost use Rattle.pi_store_blocks.specs.Form.{form_of, number_of, is_ground_form, is_ref, IsFitting, IsSmall, small_of, small_number};

use pi_constraints::Ref;

/// How far the numbers of small integers are moved up, so that none is below 0.
const BIAS: i64 = 1_152_921_504_606_846_976;

/// What a word is by itself: a Ref, or none. The lowest three bits of the number are a tag, the others a number of their own.
#[derive(Clone, Copy)]
pub enum Form {
    /// The variable with this number.
    Var(u64),
    /// An integer of 61 bits with a sign.
    Int(i64),
    /// The atom with this number.
    Atom(u64),
    /// A compound with the first name and two arguments, which stand at a place; and whether it is ground.
    Pair(u64, bool),
    /// What a header stands for, which is at a place; and whether it is ground. It is a compound, or an integer of 128 bits.
    Comp(u64, bool),
    /// No Ref: a word that says something else, with this number.
    Data(u64),
}

impl Form {
    /// The form of a Ref.
    pub fn of(r: Ref) -> Form
        ensures { result ≡ form_of r.number }
    {
        let payload = r.number / 8;
        match r.number % 8 {
            0 => Form::Var(payload),
            1 => Form::Int(small_of(payload)),
            2 => Form::Atom(payload),
            3 => Form::Pair(payload, false),
            4 => Form::Pair(payload, true),
            5 => Form::Comp(payload, false),
            6 => Form::Comp(payload, true),
            _ => Form::Data(payload),
        }
    }

    /// The Ref of a form.
    pub fn to_ref(self) -> Ref
        requires { IsFitting self }
        ensures { result.number ≡ number_of self }
    {
        let number = match self {
            Form::Var(n) => n * 8,
            Form::Int(n) => small_number(n) * 8 + 1,
            Form::Atom(k) => k * 8 + 2,
            Form::Pair(place, is_ground) => place * 8 + if is_ground { 4 } else { 3 },
            Form::Comp(place, is_ground) => place * 8 + if is_ground { 6 } else { 5 },
            Form::Data(n) => n * 8 + 7,
        };
        Ref { number }
    }

    /// Whether no variable occurs in what it is, as it was made.
    pub fn is_ground(self) -> bool
        ensures { result ≡ is_ground_form self }
    {
        match self {
            Form::Var(_) | Form::Data(_) => false,
            Form::Pair(_, is_ground) | Form::Comp(_, is_ground) => is_ground,
            Form::Int(_) | Form::Atom(_) => true,
        }
    }
}

/// Whether a word is a Ref.
pub fn is_ref(word: u64) -> bool
    ensures { result ≡ is_ref word }
{
    match Form::of(Ref { number: word }) {
        Form::Data(_) => false,
        Form::Var(_) | Form::Int(_) | Form::Atom(_) => true,
        Form::Pair(_, _) | Form::Comp(_, _) => true,
    }
}

/// The integer that the upper bits of a number are.
fn small_of(payload: u64) -> i64
    requires { payload < 2 ^ 61 }
    ensures { result ≡ small_of payload }
{
    payload as i64 - BIAS
}

/// The upper bits for an integer.
fn small_number(n: i64) -> u64
    requires { IsSmall n }
    ensures is { result ≡ small_number n }
    ensures fits { result < 2 ^ 61 }
{
    (n + BIAS) as u64
}

/// Whether an integer fits the upper bits of a number.
pub fn is_small(n: i128) -> bool
    ensures { IsTrue result ↔ IsSmall n }
{
    -1_152_921_504_606_846_976 <= n && n < 1_152_921_504_606_846_976
}
