//! The built-in functions. A User's Guide to Picat, 'Appendix: Predicates and Functions'; which of them are there is own.
use pi_effects::Op;

/// A function of a list, most of them of an array too.
#[derive(Clone, Copy)]
pub enum FunctionOfCollection {
    Length,
    Head,
    Tail,
    First,
    Last,
    Reverse,
    Sum,
    Product,
    ToList,
    ToArray,
    Sort,
    /// `sort_remove_dups`
    SortOnce,
    /// `remove_dups`
    EachOnce,
    /// `min`
    Least,
    /// `max`
    Greatest,
}

/// A function with one argument.
#[derive(Clone, Copy)]
pub enum FunctionOfOne {
    /// `+`: an integer as it is
    Same,
    Negate,
    Magnitude,
    Sign,
    Complement,
    /// A function of a list or an array.
    Collection(FunctionOfCollection),
    Name,
    Arity,
    ToString,
    NewList,
    NewArray,
    CopyTerm,
    /// The term as it stands, for what programs are lowered to: it has the name `once`.
    Itself,
    /// The items of a proper list, the last one first, for what programs are lowered to: it has the name `not`.
    InOrder,
}

/// A function with two arguments.
#[derive(Clone, Copy)]
pub enum FunctionOfTwo {
    /// An operation on two integers.
    Operation(Op),
    /// `min`, of two integers
    Least,
    /// `max`, of two integers
    Greatest,
    /// `++`
    Append,
    DeleteAll,
    Zip,
    /// `X[I]`, which has the name `in`
    Item,
    /// `L..H`
    Range,
    /// `new_array`, of two sizes
    NewGrid,
    /// How many values a range has, for what programs are lowered to: it has the name `:=`.
    RangeCount,
}

/// A function that is built in, by its number of arguments.
#[derive(Clone, Copy)]
pub enum Function {
    OfOne(FunctionOfOne),
    OfTwo(FunctionOfTwo),
    /// `L..S..H`
    RangeBy,
}
