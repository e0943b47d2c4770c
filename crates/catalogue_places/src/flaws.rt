use crate::member::Member;

/// What is wrong with an object.
#[derive(Clone, Copy, Debug, PartialEq, Eq, Drop)]
pub enum Flaw {
    /// The value is no object.
    NoObject,
    /// The object has a member that is not listed: the first one, by its number among the members in
    /// the order of their names.
    Unlisted(usize),
    /// The member is missing.
    Missing(Member),
    /// The member is of another kind, or its number is out of bounds.
    Wrong(Member),
    /// A step has neither a batchlet nor a chunk, or both.
    NotOneTask,
}

/// The object with a flaw, from an element.
#[derive(Clone, Copy, Debug, PartialEq, Eq, Drop)]
pub enum Inside {
    /// The element itself.
    Own,
    /// The element's member of this name.
    In(Member),
    /// The member of this name of the element's chunk.
    InChunk(Member),
    /// The element's transition element of this number, counted from 0.
    Transition(u64),
}

/// A flaw, and the object that has it.
#[derive(Clone, Copy, Debug, PartialEq, Eq, Drop)]
pub struct Spot {
    /// The object.
    pub inside: Inside,
    /// Its flaw.
    pub flaw: Flaw,
}
