//! How arguments of calls are read: evaluated, or as structure, in constraints. A User's Guide to Picat, 'Constraints';
//! which are which is own.
ghost use Rattle.std.specs.Prelude.{◌≡◌, ◌∷◌, [], cond, drop};
ghost use Rattle.pi_meaning.specs.OverNames.Forms as spec;
ghost use Rattle.pi_rewrite_spec.specs.Values.{stays as stays_node, is_ranged as is_ranged_reading};
ghost use Rattle.pi_rewrite_slots.specs.ReadAs.{reading_of, readings_of};

use crate::views::is_one_of;

/// How an expression is read.
#[derive(Clone, Copy)]
pub enum Reading {
    /// It is evaluated.
    Plain,
    /// As an operand of a constraint: its sums and products stay as structure.
    Operand,
    /// As an operand of a sign between constraints: such signs and relations stay as structure.
    Boolean,
    /// As the right side of `::` or `notin`: a range stays as one.
    Ranged,
}

/// How the arguments of a call are read.
#[derive(Clone, Copy)]
pub enum Readings {
    /// Each is evaluated.
    Plain,
    /// The first two are operands of a constraint.
    Operands,
    /// The first two are operands of a sign between constraints.
    Booleans,
    /// The second is the right side of `::` or `notin`.
    Within,
}

/// The relations of constraints.
const RELATIONS: [&str; 7] = ["#=", "#!=", "#<", "#=<", "#<=", "#>", "#>="];

/// The signs between two constraints.
const CONNECTIVES: [&str; 5] = ["#/\\", "#\\/", "#^", "#=>", "#<=>"];

/// What takes a variable and its values.
const DOMAINS: [&str; 2] = ["::", "notin"];

/// The nodes of an operand that stay as structure, with one argument and with two.
const SIGNS_OF_ONE: [&str; 3] = ["+", "-", "abs"];

const SIGNS_OF_TWO: [&str; 3] = ["+", "-", "*"];

impl Reading {
    /// Whether a range stays as one.
    pub fn is_ranged(self) -> bool
        ensures { result ≡ is_ranged_reading (reading_of self) }
    {
        match self {
            Reading::Plain => false,
            Reading::Operand => false,
            Reading::Boolean => false,
            Reading::Ranged => true,
        }
    }

    /// Whether a call with so many arguments stays as a structure of what they come to.
    pub fn stays(self, name: &str, count: usize) -> bool
        ensures { result ≡ stays_node (reading_of self) name.now count }
    {
        match self {
            Reading::Plain => false,
            Reading::Operand => is_operand_node(name, count) | is_sum(name, count),
            Reading::Boolean => is_connective(name, count) | is_relation(name, count),
            Reading::Ranged => false,
        }
    }

    /// How the arguments of a call are read that is read so itself.
    #[tactic(auto, unfolding(pi_meaning::specs::OverNames::Forms::operand_readings))]
    pub fn of_parts(self, name: &str, count: usize) -> Readings
        ensures { readings_of result ≡ spec.operand_readings (reading_of self) name.now count }
    {
        match self {
            Reading::Plain => Readings::Plain,
            Reading::Operand => parts_of_operand(name, count),
            Reading::Boolean => parts_of_boolean(name, count),
            Reading::Ranged => Readings::Plain,
        }
    }
}

impl Readings {
    /// How the arguments of a goal are read.
    #[tactic(auto, unfolding(pi_meaning::specs::OverNames::Forms::readings))]
    pub fn of_goal(name: &str, count: usize) -> Readings
        ensures { readings_of result ≡ spec.readings name.now count }
    {
        if is_relation(name, count) {
            return Readings::Operands;
        }
        if is_connective(name, count) {
            return Readings::Booleans;
        }
        if is_within(name, count) {
            return Readings::Within;
        }
        Readings::Plain
    }

    /// How the argument with this number is read, counted from 0.
    pub fn at(self, i: usize) -> Reading
        ensures { reading_of result ≡ spec.first_reading (drop i (readings_of self)) }
    {
        match self {
            Readings::Plain => Reading::Plain,
            Readings::Operands => first_two(Reading::Operand, i),
            Readings::Booleans => first_two(Reading::Boolean, i),
            Readings::Within => second(i),
        }
    }
}

/// A reading of the first two arguments.
fn first_two(reading: Reading, i: usize) -> Reading
    ensures { reading_of result ≡ spec.first_reading (drop i (reading_of reading ∷ (reading_of reading ∷ []))) }
{
    if i < 2 {
        return reading;
    }
    Reading::Plain
}

/// The reading of the values of a variable, which stand second.
fn second(i: usize) -> Reading
    ensures { reading_of result ≡ spec.first_reading (drop i (spec.plain ∷ (spec.ranged ∷ []))) }
{
    if i == 1 {
        return Reading::Ranged;
    }
    Reading::Plain
}

fn parts_of_operand(name: &str, count: usize) -> Readings
    ensures { readings_of result ≡ cond (spec.is_operand_node name.now count) (spec.operand ∷ (spec.operand ∷ [])) [] }
{
    if is_operand_node(name, count) {
        return Readings::Operands;
    }
    Readings::Plain
}

fn parts_of_boolean(name: &str, count: usize) -> Readings
    ensures { readings_of result ≡ cond (spec.is_connective name.now count) (spec.boolean ∷ (spec.boolean ∷ []))
        (cond (spec.is_constraint name.now count) (spec.operand ∷ (spec.operand ∷ [])) []) }
{
    if is_connective(name, count) {
        return Readings::Booleans;
    }
    if is_relation(name, count) {
        return Readings::Operands;
    }
    Readings::Plain
}

fn is_relation(name: &str, count: usize) -> bool
    ensures { result ≡ spec.is_constraint name.now count }
{
    count == 2 && is_one_of(&RELATIONS, name)
}

fn is_connective(name: &str, count: usize) -> bool
    ensures { result ≡ spec.is_connective name.now count }
{
    (count == 1 && name == "#~") || (count == 2 && is_one_of(&CONNECTIVES, name))
}

fn is_within(name: &str, count: usize) -> bool
    ensures { result ≡ spec.is_within name.now count }
{
    count == 2 && is_one_of(&DOMAINS, name)
}

fn is_operand_node(name: &str, count: usize) -> bool
    ensures { result ≡ spec.is_operand_node name.now count }
{
    (count == 1 && is_one_of(&SIGNS_OF_ONE, name)) || (count == 2 && is_one_of(&SIGNS_OF_TWO, name))
}

fn is_sum(name: &str, count: usize) -> bool
    ensures { result ≡ spec.is_sum name.now count }
{
    count == 1 && name == "sum"
}
