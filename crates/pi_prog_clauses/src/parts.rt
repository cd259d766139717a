//! What the parts of a program are, each by itself.
use pi_syntax::{Clause, ModeLists, Names};

/// A part of a program by itself. (A User's Guide to Picat, 'Predicates and Functions'; the limits are own.)
///
/// It is no `Result`, since a part that is refused stays among the others: they are judged together.
#[derive(Drop)]
pub enum PartReading {
    /// Its tokens are crowded, or an expression of its clause has more than 1,000 levels.
    TooDeep,
    /// It begins with a declaration of no form.
    BadDeclaration,
    /// No end point stands behind it, or it is no clause.
    NoClause,
    /// An import of libraries.
    Import(Names),
    Written(WrittenPart),
}

/// A clause with the mode lists of the `index` before it.
#[derive(Drop)]
pub struct WrittenPart {
    pub modes: Option<ModeLists>,
    pub clause: Clause,
    /// The clause has a form that is forbidden, whatever the other parts are.
    pub has_bad_form: bool,
    /// Its variables have more than 4,096 different names.
    pub has_too_many_names: bool,
}
