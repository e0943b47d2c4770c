ghost use Rattle.std.specs.Prelude.{◌≡◌, true};
ghost use Rattle.lent_json.specs.Kinds.{all_texts, are_counts};

use crate::flat::Scalar;

/// The members of an object of texts, or of an empty object, in the order of its text.
#[derive(Debug, Drop)]
pub struct TextMembers<'t> {
    pub(crate) members: Vec<(&'t str, Scalar<'t>)>,
    ghost texts: { all_texts members.items ≡ true },
}

impl<'t> TextMembers<'t> {
    /// Returns the names and the texts.
    pub fn members(&self) -> &[(&'t str, Scalar<'t>)]
        ensures { result.now ≡ self.now.members.items }
    {
        self.members.as_slice()
    }
}

/// The members of an object of whole numbers, in the order of its text.
#[derive(Debug, Drop)]
pub struct CountMembers<'t> {
    pub(crate) members: Vec<(&'t str, Scalar<'t>)>,
    ghost counts: { are_counts members.items ≡ true },
}

/// A member of a flat object. If a name comes twice in an object, the last one counts.
#[derive(Debug, Drop)]
pub enum Member<'t> {
    /// A scalar.
    Scalar(Scalar<'t>),
    /// An object of whole numbers, at least one.
    Counts(CountMembers<'t>),
    /// An object of texts, or an empty object.
    Texts(TextMembers<'t>),
}

/// The members of an object, in the order of its text: scalars, and objects of texts or of whole
/// numbers. If a name comes twice, the last one counts.
#[derive(Debug, Drop)]
pub struct FlatObject<'t> {
    pub(crate) members: Vec<(&'t str, Member<'t>)>,
}
