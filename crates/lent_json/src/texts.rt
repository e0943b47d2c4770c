use crate::member::TextMembers;
use serde_json::{Map, Value};

/// An object of texts whose members are looked up.
#[derive(Clone, Copy)]
pub enum Texts<'v, 't> {
    /// An object with memory of its own, its members by rising names.
    Own(&'v Map<String, Value>),
    /// A borrowed object, its members in the order of its text.
    Lent(&'v TextMembers<'t>),
}
