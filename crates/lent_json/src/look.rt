ghost use Rattle.std.specs.Prelude.{◌≡◌, true, map, option_map, is_some, IfSome};
ghost use Rattle.std.specs.List.{list_all};
ghost use Rattle.std.specs.BTreeMap.{values};
ghost use Rattle.serde_json.specs.View.{view};
ghost use Rattle.serde_json.specs.Find.{get, as_str};
ghost use Rattle.json_members.specs.Members.{as_count, as_object_value, has_only, text_at, number_at, optional_text, optional_number, optional_object};
ghost use Rattle.lent_json.specs.Looks.{shown, is_inside};
ghost use Rattle.lent_json.specs.Flat.{member_data, scalars_data};
ghost use Rattle.lent_json.specs.TextObjects.{texts_data, as_texts_value, optional_texts};

use crate::flat::{Scalar, keys_among, last_named};
use crate::member::{CountMembers, FlatObject, Member, TextMembers};
use crate::texts::Texts;
use serde_json::Map;

/// A JSON value whose members are looked up.
#[derive(Clone, Copy)]
pub enum Look<'v, 't> {
    /// A value with memory of its own.
    Own(&'v serde_json::Value),
    /// An object that was read in one pass.
    Flat(&'v FlatObject<'t>),
    /// An object of whole numbers inside such an object.
    Counts(&'v CountMembers<'t>),
    /// An object of texts inside such an object.
    Texts(&'v TextMembers<'t>),
    /// A scalar inside such an object.
    Scalar(Scalar<'t>),
}

impl<'v, 't> Look<'v, 't> {
    fn get(self, name: &str) -> Option<Look<'v, 't>>
        ensures shown { option_map shown result ≡ get name.now (shown self.entry) }
        ensures inside { IfSome result (λ found. is_inside found ≡ true) }
    {
        match self {
            Look::Own(value) => Some(Look::Own(value.get(name)?)),
            Look::Flat(object) => {
                let member = last_named(object.members.as_slice(), name)?;
                Some(look_at(member))
            }
            Look::Counts(counts) => look_among(counts.members.as_slice(), name),
            Look::Texts(texts) => look_among(texts.members.as_slice(), name),
            Look::Scalar(_) => None,
        }
    }

    fn as_str(self) -> Option<&'v str>
        ensures { option_map (λ text. text.now) result ≡ as_str (shown self.entry) }
    {
        match self {
            Look::Own(value) => value.as_str(),
            Look::Scalar(Scalar::Text(text)) => Some(text),
            _ => None,
        }
    }

    fn as_count(self) -> Option<u64>
        ensures { result ≡ as_count (shown self.entry) }
    {
        match self {
            Look::Own(value) => value.as_u64(),
            Look::Scalar(Scalar::Count(count)) => Some(count),
            _ => None,
        }
    }

    fn as_object(self) -> Option<Look<'v, 't>>
        ensures { option_map shown result ≡ as_object_value (shown self.entry) }
    {
        match self {
            Look::Own(serde_json::Value::Object(_)) => Some(self),
            Look::Flat(_) | Look::Counts(_) | Look::Texts(_) => Some(self),
            _ => None,
        }
    }

    fn as_texts(self) -> Option<Texts<'v, 't>>
        requires { is_inside self ≡ true }
        ensures { option_map texts_data result ≡ as_texts_value (shown self.entry) }
    {
        match self {
            Look::Own(value) => own_texts(value),
            Look::Texts(texts) => Some(Texts::Lent(texts)),
            Look::Counts(_) => None,
            Look::Scalar(_) => None,
            Look::Flat(_) => None,
        }
    }

    /// Returns the text of the member of this name. Returns `None` if there is no such member, or
    /// if it is no text.
    pub fn text_at(self, name: &str) -> Option<&'v str>
        ensures { option_map (λ text. text.now) result ≡ text_at name.now (shown self.entry) }
    {
        self.get(name)?.as_str()
    }

    /// Returns the number of the member of this name, 0 to 2^64 - 1. Returns `None` if there is no
    /// such member, or if it is no such number.
    pub fn number_at(self, name: &str) -> Option<u64>
        ensures { result ≡ number_at name.now (shown self.entry) }
    {
        self.get(name)?.as_count()
    }

    /// Returns the text of a member that may be left out. Returns `Some(None)` if it is left out,
    /// and `None` if it is there and no text.
    pub fn optional_text(self, name: &str) -> Option<Option<&'v str>>
        ensures { option_map (option_map (λ text. text.now)) result
            ≡ optional_text name.now (shown self.entry) }
    {
        match self.get(name) {
            Some(member) => Some(Some(member.as_str()?)),
            None => Some(None),
        }
    }

    /// Returns the number, 0 to 2^64 - 1, of a member that may be left out. Returns `Some(None)` if
    /// it is left out, and `None` if it is there and no such number.
    pub fn optional_number(self, name: &str) -> Option<Option<u64>>
        ensures { result ≡ optional_number name.now (shown self.entry) }
    {
        match self.get(name) {
            Some(member) => Some(Some(member.as_count()?)),
            None => Some(None),
        }
    }

    /// Returns the object of a member that may be left out. Returns `Some(None)` if it is left out,
    /// and `None` if it is there and no object.
    pub fn optional_object(self, name: &str) -> Option<Option<Look<'v, 't>>>
        ensures { option_map (option_map shown) result ≡ optional_object name.now (shown self.entry) }
    {
        match self.get(name) {
            Some(member) => Some(Some(member.as_object()?)),
            None => Some(None),
        }
    }

    /// Returns the object of texts of a member that may be left out. Returns `Some(None)` if it is
    /// left out, and `None` if it is there and no object of texts.
    pub fn optional_texts(self, name: &str) -> Option<Option<Texts<'v, 't>>>
        ensures { option_map (option_map texts_data) result
            ≡ optional_texts name.now (shown self.entry) }
    {
        match self.get(name) {
            Some(member) => Some(Some(member.as_texts()?)),
            None => Some(None),
        }
    }

    /// Checks whether it is an object that has no other members than these. It may lack some of
    /// them.
    ///
    /// The number of comparisons is at most the number of members times the number of names.
    pub fn has_only(self, names: &[&str]) -> bool
        ensures { result ≡ has_only (map (λ name. name.now) names.now) (shown self.entry) }
    {
        match self {
            Look::Own(value) => json_members::has_only(value, names),
            Look::Flat(object) => keys_among(object.members.as_slice(), names),
            Look::Counts(counts) => keys_among(counts.members.as_slice(), names),
            Look::Texts(texts) => keys_among(texts.members.as_slice(), names),
            Look::Scalar(_) => false,
        }
    }
}

fn look_at<'v, 't>(member: &'v Member<'t>) -> Look<'v, 't>
    ensures shown { shown result ≡ member_data member.now }
    ensures inside { is_inside result ≡ true }
{
    match member {
        Member::Scalar(scalar) => Look::Scalar(*scalar),
        Member::Counts(counts) => Look::Counts(counts),
        Member::Texts(texts) => Look::Texts(texts),
    }
}

fn look_among<'v, 't>(members: &'v [(&'t str, Scalar<'t>)], name: &str) -> Option<Look<'v, 't>>
    ensures shown { option_map shown result ≡ get name.now (scalars_data members.now) }
    ensures inside { IfSome result (λ found. is_inside found ≡ true) }
{
    let scalar = last_named(members, name)?;
    Some(Look::Scalar(*scalar))
}

fn own_texts<'v, 't: 'v>(value: &'v serde_json::Value) -> Option<Texts<'v, 't>>
    ensures { option_map texts_data result ≡ as_texts_value (view value.now) }
{
    match value.as_object() {
        Some(members) => {
            if are_texts(members) {
                Some(Texts::Own(members))
            } else {
                None
            }
        }
        None => None,
    }
}

fn are_texts(members: &Map<String, serde_json::Value>) -> bool
    ensures { result ≡ list_all (λ value. is_some (as_str (view value))) (values members.now) }
{
    members.values().all(serde_json::Value::is_string)
}
