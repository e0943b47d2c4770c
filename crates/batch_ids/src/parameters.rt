ghost use Rattle.std.specs.Prelude.{◌≡◌, ◌||◌, ◌⊎◌, ◌↔◌, ◌<◌, ◌≤◌, ℕ, List, [], true, false, nat_lt, length, slice_set, option_copied, Err, Ok, IsTrue, IfOk, IfErr, OnOk, OnErr};
ghost use Rattle.std.specs.List.{insert};
ghost use Rattle.std.specs.Slice.Iter.{iter_rest};
ghost use Rattle.std.specs.Iterator.Adapters.{IterYieldsInOrder};
ghost use Rattle.batch_ids.specs.Parameters.{Pair, AreParameters, with_pair, parameters_of, pairs_of, is_long, is_too_large, value_of};

use crate::{OutOfMemory, Refusal, Shared, T256, Text};
use std::alloc::Global;
use std::cmp::Ordering;
use std::marker::Model;
use std::slice;

/// The largest number of parameters of a job execution.
const MOST_PARAMETERS: usize = 64;

/// One parameter of a job execution: a key of at most 256 bytes, and a value of at most 4,096.
/// Contracts see a pair of bytes.
#[derive(PartialEq, Eq, Debug, Drop)]
pub struct Parameter {
    key: T256,
    value: Text<4096>,
}

impl Model for Parameter {
    ghost use Rattle.batch_ids.specs.Parameters.{Pair};

    ghost Value = { Pair };

    ghost view = { λ parameter. (parameter.key, parameter.value) };

    ghost inverse = { λ pair. record { key = pair.0; value = pair.1 } };
}

impl Parameter {
    /// Returns the key, of at most 256 bytes.
    pub fn key(&self) -> &T256
        ensures { result.now ≡ self.now.0 }
    {
        &self.key
    }

    /// Returns the value, of at most 4,096 bytes.
    pub fn value(&self) -> &Text<4096>
        ensures { result.now ≡ self.now.1 }
    {
        &self.value
    }
}

/// Parameters by rising keys.
#[derive(Debug, Drop)]
struct SortedParameters {
    held: Vec<Parameter>,
}

impl Model for SortedParameters {
    ghost use Rattle.std.specs.Prelude.{List};
    ghost use Rattle.batch_ids.specs.Parameters.{Pair, AreParameters};

    ghost Value = { List Pair };

    ghost view = { λ parameters. parameters.held.items };

    ghost invariant = { λ parameters. AreParameters parameters.held.items };
}

impl SortedParameters {
    /// Sorts the given pairs. If a key is given twice, its last value counts.
    fn new(alloc: Global, given: Vec<(String, String)>) -> Result<SortedParameters, Refusal>
        ensures same { IfOk result (λ made. made ≡ parameters_of (pairs_of given.items)) }
        ensures fits { OnOk result (is_too_large (pairs_of given.items) ≡ false) }
        ensures refused { is_too_large (pairs_of given.items) ≡ true
            → (result ≡ Err Refusal.TextTooLong) ⊎ (result ≡ Err Refusal.OutOfMemory) }
        ensures fault { IfErr result (λ refusal. (refusal ≡ Refusal.OutOfMemory)
            ⊎ (refusal ≡ Refusal.TextTooLong × (is_too_large (pairs_of given.items) ≡ true))) }
        ensures none_given { given.items ≡ [] → result ≡ Ok [] }
    {
        let mut made = SortedParameters {
            held: Vec::new(alloc),
        };
        for pair in &given {
            made.put(alloc, pair.0.as_str(), pair.1.as_str())?;
        }
        Ok(made)
    }

    /// Inserts a pair by its key, or replaces the pair with the same key.
    fn put(&mut self, alloc: Global, key: &str, value: &str) -> Result<(), Refusal>
        ensures put { OnOk result (self.new ≡ with_pair self.old (key.now, value.now)) }
        ensures few { OnOk result (length self.new ≤ 64) }
        ensures fits { OnOk result (is_long (key.now, value.now) ≡ false) }
        ensures fault { IfErr result (λ refusal. (refusal ≡ Refusal.OutOfMemory)
            ⊎ (refusal ≡ Refusal.TextTooLong
            × ((is_long (key.now, value.now) || nat_lt 64 (length (with_pair self.old (key.now, value.now)))) ≡ true))) }
    {
        let parameter = Parameter {
            key: T256::new(alloc, key)?,
            value: Text::new(alloc, value)?,
        };
        match self.place(key) {
            Ok(at) => self.held[at] = parameter,
            Err(at) => {
                if self.held.len() >= MOST_PARAMETERS {
                    return Err(Refusal::TextTooLong);
                }
                self.held.insert(at, parameter)?;
            }
        }
        Ok(())
    }

    /// Returns the index of this key, or else the index at which to insert it.
    fn place(&self, key: &str) -> Result<usize, usize>
        ensures held { IfOk result (λ at. (at < length self.now)
            × ((value : List ℕ) → with_pair self.now (key.now, value) ≡ slice_set self.now at (key.now, value))) }
        ensures absent { IfErr result (λ at. (at ≤ length self.now)
            × ((value : List ℕ) → with_pair self.now (key.now, value) ≡ insert self.now at (key.now, value))) }
        ensures kept { AreParameters self.now }
    {
        for (at, parameter) in self.held.iter().enumerate() {
            match parameter.key.as_str().cmp(key) {
                Ordering::Less => {}
                Ordering::Equal => return Ok(at),
                Ordering::Greater => return Err(at),
            }
        }
        Err(self.held.len())
    }
}

/// A job execution's parameters: at most 64, by rising keys, each key once. Clones share them.
/// Contracts see the list of pairs. See Jakarta Batch 2.1, "JobOperator" (`start`,
/// `getParameters`).
#[derive(Debug, Drop)]
pub struct Parameters {
    shared: Option<Shared<SortedParameters>>,
}

impl Model for Parameters {
    ghost use Rattle.std.specs.Prelude.{List, [], ◌<◌, length, IfSome};
    ghost use Rattle.std.specs.Option.{unwrap_or};
    ghost use Rattle.batch_ids.specs.Parameters.{Pair, AreParameters};

    ghost Value = { List Pair };

    ghost view = { λ parameters. unwrap_or parameters.shared [] };

    ghost invariant = { λ parameters. AreParameters (unwrap_or parameters.shared [])
        × IfSome parameters.shared (λ held. 0 < length held) };
}

impl Parameters {
    /// Returns the parameters for these pairs of a key and a value. If a key is given twice, its
    /// last value counts.
    ///
    /// For each pair the call copies both texts and compares at most 64 keys. An empty list takes
    /// no memory.
    ///
    /// # Errors
    ///
    /// - Returns `TextTooLong` if a key has more than 256 bytes, if a value has more than 4,096, or
    ///   if more than 64 different keys are given. It may return `OutOfMemory` instead if memory is
    ///   refused before the call sees this.
    /// - Otherwise returns `OutOfMemory` if memory is refused.
    pub fn new(alloc: Global, given: Vec<(String, String)>) -> Result<Parameters, Refusal>
        ensures same { IfOk result (λ made. made ≡ parameters_of (pairs_of given.items)) }
        ensures fits { OnOk result (is_too_large (pairs_of given.items) ≡ false) }
        ensures refused { is_too_large (pairs_of given.items) ≡ true
            → (result ≡ Err Refusal.TextTooLong) ⊎ (result ≡ Err Refusal.OutOfMemory) }
        ensures fault { IfErr result (λ refusal. (refusal ≡ Refusal.OutOfMemory)
            ⊎ (refusal ≡ Refusal.TextTooLong × (is_too_large (pairs_of given.items) ≡ true))) }
        ensures none_given { given.items ≡ [] → result ≡ Ok [] }
    {
        let sorted = SortedParameters::new(alloc, given)?;
        if sorted.held.is_empty() {
            return Ok(Parameters::none());
        }
        let shared = Shared::new(alloc, sorted)?;
        Ok(Parameters {
            shared: Some(shared),
        })
    }

    /// Returns no parameters. The call takes no memory.
    pub fn none() -> Parameters
        ensures { result ≡ [] }
    {
        Parameters { shared: None }
    }

    /// Returns the value of this key, or `None` if there is no such key. The call compares at most
    /// 64 keys.
    pub fn get(&self, key: &str) -> Option<&str>
        ensures { option_copied result ≡ value_of self.now key.now }
    {
        for parameter in self.pairs() {
            if parameter.key.as_str() == key {
                return Some(parameter.value.as_str());
            }
        }
        None
    }

    /// Returns the parameters by rising keys, in the order of the keys' bytes.
    pub fn pairs(&self) -> &[Parameter]
        ensures same { result.now ≡ self.now }
        ensures kept { AreParameters self.now }
    {
        match &self.shared {
            None => &[],
            Some(sorted) => sorted.get().held.as_slice(),
        }
    }

    /// Returns an iterator over the parameters by rising keys, in the order of the keys' bytes.
    pub fn iter(&self) -> slice::Iter<'_, Parameter>
        ensures rest { iter_rest result ≡ self.now }
        ensures few { length (iter_rest result) ≤ 64 }
        ensures runs { IterYieldsInOrder Pair }
    {
        self.pairs().iter()
    }

    /// Returns the number of parameters, at most 64.
    pub fn len(&self) -> usize
        ensures number { result ≡ length self.now }
        ensures few { result ≤ 64 }
    {
        self.pairs().len()
    }

    /// Checks whether there are no parameters.
    pub fn is_empty(&self) -> bool
        ensures { IsTrue result ↔ (self.now ≡ []) }
    {
        self.pairs().is_empty()
    }

    /// Returns equal parameters, which share the pairs. The call takes no memory.
    ///
    /// # Errors
    ///
    /// Returns `OutOfMemory` if there are parameters and 2^63 clones share them already.
    pub fn try_clone(&self) -> Result<Parameters, OutOfMemory>
        ensures same { IfOk result (λ copy. copy ≡ self.now) }
        ensures none_held { self.now ≡ [] → result ≡ Ok [] }
    {
        match &self.shared {
            None => Ok(Parameters::none()),
            Some(sorted) => Ok(Parameters {
                shared: Some(sorted.try_clone()?),
            }),
        }
    }
}

impl<'a> IntoIterator for &'a Parameters {
    ghost use Rattle.batch_ids.specs.Parameters.{Pair};

    type Item = &'a Parameter;

    type IntoIter = slice::Iter<'a, Parameter>;

    ghost into_iter_gives = { λ parameters made. (iter_rest made ≡ parameters.now)
        × (length (iter_rest made) ≤ 64) × IterYieldsInOrder Pair };

    fn into_iter(self) -> slice::Iter<'a, Parameter> {
        self.iter()
    }
}

impl PartialEq for Parameters {
    ghost use Rattle.std.specs.Prelude.{◌==◌, ◌&&◌};
    ghost use Rattle.std.specs.Cmp.Lexicographic.{pointwise};
    ghost use Rattle.std.specs.Cmp.Rules.{comparing};
    ghost use Rattle.std.proofs.Common.{rules};

    ghost eq = { pointwise (λ one other. pointwise ◌==◌ one.0 other.0 && pointwise ◌==◌ one.1 other.1) };

    ghost laws = { Prim.search (comparing, rules) };

    fn eq(&self, other: &Parameters) -> bool {
        self.pairs() == other.pairs()
    }
}

impl Eq for Parameters {
    ghost use Rattle.std.specs.Cmp.Rules.{comparing};
    ghost use Rattle.std.proofs.Common.{rules};

    ghost laws = { Prim.search (comparing, rules) };
}
