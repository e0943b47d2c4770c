ghost use Rattle.std.specs.Prelude.{ℕ, ◌≡◌, ◌≢◌, ◌<◌, ◌≤◌, ◌∷◌, Some, None, Err, IfOk, OnOk, IfSome, length, option_map};
ghost use Rattle.json.specs.Token.Token.{bad};
ghost use Rattle.json.specs.Reads.{token_of};
ghost use Rattle.serde_json.specs.Data.{no_members};
ghost use Rattle.serde_json.specs.Read.{read as read_data};
ghost use Rattle.lent_json.specs.Flat.{scalar_data, scalars_data, member_data, flat_data, put_all};
ghost use Rattle.lent_json.specs.Reads.{members_read, value_read, scalar_of};
ghost use Rattle.lent_json.specs.declared.reading.Unread.TheVariants.{NoJson, OutOfMemory};

use crate::flat::{Scalar, all_texts, are_counts};
use crate::member::{CountMembers, FlatObject, Member, TextMembers};
use crate::numbers::count_in;
use json::{Invalid, Reader, Scratch, Token};
use std::alloc::{AllocError, Global};

/// The reason why a text isn't read in one pass.
#[derive(Clone, Copy, Debug, PartialEq, Eq, Drop)]
pub enum Unread {
    /// The text may still be a JSON value. It has to be read anew by a full reader.
    Other,
    /// The text is no JSON value.
    NoJson,
    /// Memory was refused.
    OutOfMemory,
}

impl From<Invalid> for Unread {
    ghost from_gives = { λ _ unread. unread ≡ NoJson };

    fn from(_error: Invalid) -> Unread {
        Unread::NoJson
    }
}

impl From<AllocError> for Unread {
    ghost from_gives = { λ _ unread. unread ≡ OutOfMemory };

    fn from(_error: AllocError) -> Unread {
        Unread::OutOfMemory
    }
}

/// The number of members for which an object has room before it takes more memory.
const ROOM: usize = 8;

/// The most members of an object, with names that come twice counted twice. A job execution has no
/// more parameters. So the memory of a read has a bound.
const MAX_MEMBERS: usize = 64;

/// Returns the scalar of a token.
fn scalar_of<'t>(token: Token<'t>) -> Result<Scalar<'t>, Unread>
    ensures read { IfOk result (λ scalar. Some (scalar_data scalar) ≡ scalar_of (token_of token.entry)) }
    ensures no_json { result ≡ Err NoJson → token_of token.entry ≡ bad }
{
    match token {
        Token::String(text) => Ok(Scalar::Text(text)),
        Token::Number(text) => match count_in(text) {
            Some(count) => Ok(Scalar::Count(count)),
            None => Err(Unread::Other),
        },
        Token::Bool(truth) => Ok(Scalar::Truth(truth)),
        Token::Null => Ok(Scalar::Null),
        Token::Bad => Err(Unread::NoJson),
        _ => Err(Unread::Other),
    }
}

/// Reads the next scalar.
fn next_scalar<'t>(reader: &mut Reader<'t>) -> Result<Scalar<'t>, Unread>
    ensures read { IfOk result (λ scalar. (depth : ℕ)
        → value_read depth reader.old ≡ Some (scalar_data scalar, reader.new)) }
    ensures shorter { OnOk result (length reader.new < length reader.old) }
    ensures no_json { result ≡ Err NoJson → (depth : ℕ)
        → value_read depth reader.old ≡ None }
{
    match reader.next() {
        Some(token) => scalar_of(token),
        None => Err(Unread::NoJson),
    }
}

/// Reads the scalars of an object after its opening brace, up to the closing brace.
fn read_scalars<'t>(
    alloc: Global,
    reader: &mut Reader<'t>,
) -> Result<Vec<(&'t str, Scalar<'t>)>, Unread>
    ensures read { IfOk result (λ found. (depth : ℕ)
        → members_read depth (length reader.old) no_members reader.old
        ≡ Some (put_all scalar_data found.items no_members, reader.new)) }
    ensures shorter { OnOk result (length reader.new < length reader.old) }
    ensures no_json { result ≡ Err NoJson → (depth : ℕ)
        → members_read depth (length reader.old) no_members reader.old ≡ None }
{
    let mut found = Vec::with_capacity(alloc, ROOM)?;
    while let Some(name) = reader.next_key()? {
        if found.len() == MAX_MEMBERS {
            return Err(Unread::Other);
        }
        let scalar = next_scalar(reader)?;
        found.reserve(1)?;
        found.push_reserved((name, scalar));
    }
    Ok(found)
}

/// Makes the object of these members, if they are all whole numbers or all texts.
fn object_of<'t>(members: Vec<(&'t str, Scalar<'t>)>) -> Result<Member<'t>, Unread>
    ensures read { IfOk result (λ member. member_data member ≡ scalars_data members.entry.items) }
    ensures no_json { result ≢ Err NoJson }
{
    if all_texts(members.as_slice()) {
        return Ok(Member::Texts(TextMembers { members }));
    }
    if are_counts(members.as_slice()) {
        return Ok(Member::Counts(CountMembers { members }));
    }
    Err(Unread::Other)
}

/// Reads the next member's value.
fn next_member<'t>(alloc: Global, reader: &mut Reader<'t>) -> Result<Member<'t>, Unread>
    ensures read { IfOk result (λ member. (depth : ℕ) → 0 < depth
        → value_read depth reader.old ≡ Some (member_data member, reader.new)) }
    ensures shorter { OnOk result (length reader.new < length reader.old) }
    ensures no_json { result ≡ Err NoJson → (depth : ℕ) → 0 < depth
        → value_read depth reader.old ≡ None }
{
    match reader.next() {
        Some(Token::BeginObject) => {
            let members = read_scalars(alloc, reader)?;
            object_of(members)
        }
        Some(token) => Ok(Member::Scalar(scalar_of(token)?)),
        None => Err(Unread::NoJson),
    }
}

/// The most levels of lists and objects inside the members of an object.
const DEPTH_INSIDE: usize = 126;

/// Reads the members of an object after its opening brace, up to the closing brace.
fn read_members<'t>(
    alloc: Global,
    reader: &mut Reader<'t>,
) -> Result<Vec<(&'t str, Member<'t>)>, Unread>
    ensures read { IfOk result (λ found.
        members_read DEPTH_INSIDE (length reader.old) no_members reader.old
        ≡ Some (put_all member_data found.items no_members, reader.new)) }
    ensures no_json { result ≡ Err NoJson
        → members_read DEPTH_INSIDE (length reader.old) no_members reader.old ≡ None }
{
    let mut found = Vec::with_capacity(alloc, ROOM)?;
    while let Some(name) = reader.next_key()? {
        if found.len() == MAX_MEMBERS {
            return Err(Unread::Other);
        }
        let member = next_member(alloc, reader)?;
        found.reserve(1)?;
        found.push_reserved((name, member));
    }
    Ok(found)
}

/// Reads a flat object from a text. Its members are null, truth values, texts, whole numbers, or
/// objects of texts or of whole numbers. It and each of these objects has 64 members at most. The
/// memory of `scratch` serves one read after another.
///
/// It reads only as far as the first token that shows that the object isn't flat.
///
/// # Errors
///
/// - `NoJson` if the text is not one JSON value whose lists and objects nest 127 deep at most.
/// - `Other` if the text isn't read in one pass. It may or may not be a JSON value.
/// - `OutOfMemory` if memory is refused.
pub fn read_flat<'t>(
    alloc: Global,
    text: &'t str,
    scratch: &'t mut Scratch,
) -> Result<FlatObject<'t>, Unread>
    ensures read { IfOk result (λ found. read_data text.now ≡ Some (flat_data found.members.items)) }
    ensures no_json { result ≡ Err NoJson → read_data text.now ≡ None }
{
    let mut reader = Reader::new(text, scratch)?;
    match reader.next() {
        Some(Token::BeginObject) => {
            let members = read_members(alloc, &mut reader)?;
            if reader.next().is_some() {
                return Err(Unread::NoJson);
            }
            Ok(FlatObject { members })
        }
        Some(Token::Bad) => Err(Unread::NoJson),
        Some(_) => Err(Unread::Other),
        None => Err(Unread::NoJson),
    }
}
