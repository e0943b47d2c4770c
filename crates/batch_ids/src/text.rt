ghost use Rattle.std.specs.Prelude.{◌≡◌, ◌<◌, ◌≤◌, length, Err, None, Ok, OnErr, OnOk, IfOk, []};

use crate::{OutOfMemory, Refusal};
use std::alloc::Global;
use std::cmp::Ordering;
use std::hash::{Hash, Hasher};
use std::marker::Model;
use std::sync::ArcStr;

/// A text of at most `MAX` bytes of UTF-8. Clones share its bytes. Contracts see the bytes.
#[derive(Debug, Drop)]
pub struct Text<const MAX: usize> {
    inner: Option<ArcStr>,
}

/// A text of at most 256 bytes: a name or an exit status.
pub type T256 = Text<256>;

impl<const MAX: usize> Model for Text<MAX> {
    ghost use Rattle.std.specs.Prelude.{ℕ, List, [], length, ◌≤◌};
    ghost use Rattle.std.specs.Option.{option_map, unwrap_or};
    ghost use Rattle.std.specs.Arc.{arc_str_bytes};

    ghost Value = { List ℕ };

    ghost view = { λ text. unwrap_or (option_map arc_str_bytes text.inner) [] };

    ghost invariant = { λ text. length (unwrap_or (option_map arc_str_bytes text.inner) []) ≤ MAX };
}

impl<const MAX: usize> Text<MAX> {
    /// Copies a text. The empty text is allowed.
    ///
    /// # Errors
    ///
    /// - Returns `TextTooLong` exactly if the text has more than `MAX` bytes.
    /// - Otherwise returns `OutOfMemory` if memory is refused.
    pub fn new(alloc: Global, text: &str) -> Result<Text<MAX>, Refusal>
        ensures same { IfOk result (λ made. made ≡ text.now) }
        ensures fits { OnOk result (length text.now ≤ MAX) }
        ensures too_long { MAX < length text.now → result ≡ Err Refusal.TextTooLong }
        ensures refused { length text.now ≤ MAX → OnErr result (result ≡ Err Refusal.OutOfMemory) }
    {
        if text.len() > MAX {
            return Err(Refusal::TextTooLong);
        }
        match ArcStr::from_str(alloc, text) {
            Ok(inner) => Ok(Text { inner: Some(inner) }),
            Err(_) => Err(Refusal::OutOfMemory),
        }
    }

    /// Copies a text. The caller guarantees that it has at most `MAX` bytes.
    ///
    /// # Errors
    ///
    /// Returns `OutOfMemory` if memory is refused.
    pub fn within(alloc: Global, text: &str) -> Result<Text<MAX>, OutOfMemory>
        requires { length text.now ≤ MAX }
        ensures { IfOk result (λ made. made ≡ text.now) }
    {
        let inner = ArcStr::from_str(alloc, text)?;
        Ok(Text { inner: Some(inner) })
    }

    /// Returns the empty text. The call takes no memory.
    pub fn empty() -> Text<MAX>
        ensures { result ≡ [] }
    {
        Text { inner: None }
    }

    /// Returns the text, of at most `MAX` bytes.
    pub fn as_str(&self) -> &str
        ensures same { result.now ≡ self.now }
        ensures fits { length self.now ≤ MAX }
    {
        match &self.inner {
            None => "",
            Some(inner) => inner.as_str(),
        }
    }

    /// Returns an equal text, which shares the bytes. The call takes no memory.
    ///
    /// # Errors
    ///
    /// Returns `OutOfMemory` if 2^63 texts share the bytes already.
    pub fn try_clone(&self) -> Result<Text<MAX>, OutOfMemory>
        ensures { IfOk result (λ copy. copy ≡ self.now) }
    {
        match &self.inner {
            None => Ok(Text { inner: None }),
            Some(inner) => Ok(Text {
                inner: Some(inner.clone()?),
            }),
        }
    }
}

/// Clones an optional text. The call takes no memory.
///
/// # Errors
///
/// Returns `OutOfMemory` if 2^63 texts share the bytes already.
pub fn try_clone_option<const MAX: usize>(
    text: &Option<Text<MAX>>,
) -> Result<Option<Text<MAX>>, OutOfMemory>
    ensures same { IfOk result (λ copy. copy ≡ text.now) }
    ensures left_out { text.now ≡ None → result ≡ Ok None }
{
    match text {
        None => Ok(None),
        Some(text) => Ok(Some(text.try_clone()?)),
    }
}

impl<const MAX: usize> PartialEq for Text<MAX> {
    ghost use Rattle.std.specs.Prelude.{◌==◌};
    ghost use Rattle.std.specs.Cmp.Lexicographic.{pointwise};
    ghost use Rattle.std.specs.Cmp.Rules.{comparing};
    ghost use Rattle.std.proofs.Common.{rules};

    ghost eq = { pointwise ◌==◌ };

    ghost laws = { Prim.search (comparing, rules) };

    fn eq(&self, other: &Text<MAX>) -> bool {
        self.as_str() == other.as_str()
    }
}

impl<const MAX: usize> Eq for Text<MAX> {
    ghost use Rattle.std.specs.Cmp.Rules.{comparing};
    ghost use Rattle.std.proofs.Common.{rules};

    ghost laws = { Prim.search (comparing, rules) };
}

impl<const MAX: usize> Ord for Text<MAX> {
    ghost use Rattle.std.specs.Ordering.{nat_cmp};
    ghost use Rattle.std.specs.Cmp.Lexicographic.{slice_cmp};
    ghost use Rattle.std.specs.Cmp.Rules.{comparing};
    ghost use Rattle.std.proofs.Common.{rules};

    ghost cmp = { slice_cmp nat_cmp };

    ghost total = { Prim.search (comparing, rules) };

    ghost matches_partial_cmp = { Prim.search (comparing, rules) };

    ghost matches_eq = { Prim.search (comparing, rules) };

    fn cmp(&self, other: &Text<MAX>) -> Ordering {
        self.as_str().cmp(other.as_str())
    }
}

impl<const MAX: usize> PartialOrd for Text<MAX> {
    ghost use Rattle.std.specs.Ordering.{nat_cmp, as_partial_cmp};
    ghost use Rattle.std.specs.Cmp.Lexicographic.{slice_cmp};
    ghost use Rattle.std.specs.Cmp.{partial_order_from_own_ties};
    ghost use Rattle.std.specs.Cmp.Rules.{comparing};
    ghost use Rattle.std.proofs.Common.{rules};

    ghost partial_cmp = { as_partial_cmp (slice_cmp nat_cmp) };

    ghost laws = { partial_order_from_own_ties (Prim.search (comparing, rules)) (Prim.search (comparing, rules)) };

    fn partial_cmp(&self, other: &Text<MAX>) -> Option<Ordering> {
        Some(self.cmp(other))
    }
}

impl<const MAX: usize> Hash for Text<MAX> {
    ghost use Rattle.std.specs.Hash as fed;
    ghost use Rattle.std.specs.Cmp.Rules.{comparing, hashing};
    ghost use Rattle.std.proofs.Common.{rules};

    ghost hash_input = { fed.str };

    ghost respects_eq = { Prim.search (hashing, rules) };

    fn hash<H: Hasher>(&self, state: &mut H) {
        self.as_str().hash(state);
    }
}
