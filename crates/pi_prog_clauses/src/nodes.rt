//! The nodes of expressions: what each is, and the place at which it stands.

pub(crate) mod form;
pub(crate) mod operators;
pub(crate) mod place;
pub(crate) mod row;
pub(crate) mod walk;
