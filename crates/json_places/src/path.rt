/// A step from a JSON value to a value inside it.
#[derive(Debug, PartialEq, Eq, Drop)]
pub enum Step {
    /// To the item of this number, counted from 0.
    Item(usize),
    /// To the last member of this name.
    Member(String),
}
