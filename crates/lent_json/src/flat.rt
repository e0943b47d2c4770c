ghost use Rattle.std.specs.Prelude.{◌≡◌, map, bytes_eq, option_map};
ghost use Rattle.std.specs.List.{list_all, list_any};
ghost use Rattle.lent_json.specs.Flat.{last_named};
ghost use Rattle.lent_json.specs.Kinds.{text_of, is_text, is_count, all_texts, are_counts};

/// A JSON value that is no list and no object. A number is a whole number. A text is borrowed.
#[derive(Clone, Copy, Debug, Drop)]
pub enum Scalar<'t> {
    /// Null.
    Null,
    /// A truth value.
    Truth(bool),
    /// A whole number, 0 to 2^64 - 1, written without sign, point and exponent.
    Count(u64),
    /// A text, with its escapes read.
    Text(&'t str),
}

impl<'t> Scalar<'t> {
    /// Returns the text, or the empty one if it is no text.
    pub fn text(&self) -> &'t str
        ensures { result.now ≡ text_of self.now }
    {
        match self {
            Scalar::Text(text) => text,
            _ => "",
        }
    }

    fn is_text(&self) -> bool
        ensures { result ≡ is_text self.now }
    {
        matches!(self, Scalar::Text(_))
    }

    fn is_count(&self) -> bool
        ensures { result ≡ is_count self.now }
    {
        matches!(self, Scalar::Count(_))
    }
}

/// Checks whether each of these is a text.
pub(crate) fn all_texts(members: &[(&str, Scalar<'_>)]) -> bool
    ensures { result ≡ all_texts members.now }
{
    members.iter().all(|member| member.1.is_text())
}

fn all_counts(members: &[(&str, Scalar<'_>)]) -> bool
    ensures { result ≡ list_all (λ member. is_count member.1) members.now }
{
    members.iter().all(|member| member.1.is_count())
}

/// Checks whether these are whole numbers, at least one.
pub(crate) fn are_counts(members: &[(&str, Scalar<'_>)]) -> bool
    ensures { result ≡ are_counts members.now }
{
    !members.is_empty() && all_counts(members)
}

/// Returns the last member of this name.
pub(crate) fn last_named<'v, T>(members: &'v [(&str, T)], name: &str) -> Option<&'v T>
    ensures { option_map (λ value. value.now) result ≡ last_named name.now members.now }
{
    let mut left = members.len();
    while left > 0 {
        left -= 1;
        let member = &members[left];
        if is_name(member.0, name) {
            return Some(&member.1);
        }
    }
    None
}

/// Checks whether the name of each member is among these.
pub(crate) fn keys_among<T>(members: &[(&str, T)], names: &[&str]) -> bool
    ensures { result ≡ list_all
        (λ member. list_any (λ listed. bytes_eq member.0.now listed.now) names.now) members.now }
{
    members.iter().all(|member| is_listed(member.0, names))
}

fn is_listed(name: &str, names: &[&str]) -> bool
    ensures { result ≡ list_any (λ listed. bytes_eq name.now listed.now) names.now }
{
    names.iter().any(|listed| is_name(name, *listed))
}

/// Checks whether two names are equal. Most unequal names differ in their length or their first
/// byte.
#[inline]
fn is_name(name: &str, wanted: &str) -> bool
    ensures { result ≡ bytes_eq name.now wanted.now }
{
    name.len() == wanted.len()
        && name.as_bytes().first() == wanted.as_bytes().first()
        && name == wanted
}
