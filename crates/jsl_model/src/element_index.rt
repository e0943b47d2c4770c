//! An index from an element's id to its place in the job, and to its work keys.
use crate::element::{Body, Element};
use batch_ids::{OutOfMemory, T256};
use std::alloc::Global;
use std::cmp::Ordering;
use std::fmt::{self, Debug, Formatter};
use std::hash::{FoldHasher, Hash, Hasher};

/// The place of an element in its job.
#[derive(Debug, Drop)]
struct Spot {
    /// Its index in its list.
    place: usize,
    /// The place of its first work key, among the work keys of the job.
    first: usize,
    /// The element that contains its list. `None` for an element of the job's own list.
    outer: Option<Outer>,
}

/// An element that contains a list of elements.
#[derive(Debug, Drop)]
pub struct Outer {
    /// Its id.
    pub id: T256,
    /// The index of the flow that has the list, if the element is a split.
    pub flow: usize,
}

impl Outer {
    fn try_clone(&self) -> Result<Outer, OutOfMemory> {
        Ok(Outer {
            id: self.id.try_clone()?,
            flow: self.flow,
        })
    }
}

/// An element's id, and its place.
#[derive(Drop)]
struct Entry {
    id: T256,
    spot: Spot,
    /// The index of the element that contains its list, in that element's own list.
    outer_place: usize,
}

/// The places of elements, ordered by id.
#[derive(Drop)]
struct Spots {
    list: Vec<Entry>,
}

impl Debug for Spots {
    fn fmt<W: fmt::Write>(&self, f: &mut Formatter<W>) -> fmt::Result {
        let mut map = f.debug_map();
        for entry in self.list.iter() {
            map.entry(&entry.id, &entry.spot);
        }
        map.finish()
    }
}

/// An id's hash, and the number of the id's entry in `Spots`.
#[derive(Clone, Copy, PartialEq, Eq, PartialOrd, Ord)]
struct HashedSpot {
    hash: u64,
    number: usize,
}

/// An index of a job's elements by id, which finds an element's place and its work keys.
///
/// No contract describes its contents. A caller compares the element at the place that was found,
/// and searches for the element if it is another one.
#[derive(Drop)]
pub struct ElementIndex {
    spots: Spots,
    /// In rising order, so that a binary search separates ids with equal hashes.
    hashes: Vec<HashedSpot>,
    /// The range of hashes has as many equal parts as there are spots. This has the index in
    /// `hashes` at which each part begins, and then the index at which the last part ends.
    starts: Vec<usize>,
}

impl Debug for ElementIndex {
    fn fmt<W: fmt::Write>(&self, f: &mut Formatter<W>) -> fmt::Result {
        f.debug_struct("ElementIndex")
            .field("spots", &self.spots)
            .finish()
    }
}

impl ElementIndex {
    /// Creates the index of these elements and of the elements inside them.
    pub(crate) fn of(alloc: Global, elements: &[Element]) -> Result<ElementIndex, OutOfMemory> {
        let mut list = Vec::new(alloc);
        add_all(&mut list, elements, None, 0)?;
        list.sort_unstable_by(|one, other| one.id.cmp(&other.id));
        let spots = Spots { list };
        let hashes = hashes_of(alloc, &spots)?;
        let starts = starts_of(alloc, hashes.as_slice())?;
        Ok(ElementIndex {
            spots,
            hashes,
            starts,
        })
    }

    /// Returns the spots whose hashes lie in the same part of the range as this hash.
    fn near(&self, hash: u64) -> Option<&[HashedSpot]> {
        let part = part_of(hash, self.hashes.len());
        let start = *self.starts.get(part)?;
        let end = *self.starts.get(part.checked_add(1)?)?;
        self.hashes.get(start..end)
    }

    /// Compares the id of the spot with this number with `id`. It tests for equality first, as they
    /// are mostly equal.
    fn order(&self, number: usize, id: &T256) -> Ordering {
        match self.spots.list.get(number) {
            Some(entry) if entry.id == *id => Ordering::Equal,
            Some(entry) => entry.id.cmp(id),
            None => Ordering::Greater,
        }
    }

    /// Returns the entry of the element with this id. It mostly looks at one spot. If hashes
    /// collide, it looks at no more than one spot more than their number has binary digits. It
    /// compares the id twice with each id that differs.
    fn entry_of(&self, id: &T256) -> Option<&Entry> {
        let hash = hash_of(id);
        let near = self.near(hash)?;
        let place = near
            .binary_search_by(|one| match one.hash.cmp(&hash) {
                Ordering::Equal => self.order(one.number, id),
                order => order,
            })
            .ok()?;
        self.spots.list.get(near.get(place)?.number)
    }

    /// Returns the index of the element with this id in its list, or 0 if there is no such element.
    /// It takes a look-up by the hash of the id. If hashes collide, it looks at no more than one id
    /// more than their number has binary digits.
    pub fn place_of(&self, id: &T256) -> usize {
        match self.entry_of(id) {
            Some(entry) => entry.spot.place,
            None => 0,
        }
    }

    /// Returns the element that contains the list of the element with this id. Returns `None` if
    /// this list is the job's own, or if there is no such element. It takes as long as `place_of`.
    pub fn outer_of(&self, id: &T256) -> Option<&Outer> {
        self.entry_of(id)?.spot.outer.as_ref()
    }

    /// Like `outer_of`, but also returns the index of the outer element in its own list. It takes
    /// as long as `place_of`.
    pub fn outer_with_place(&self, id: &T256) -> Option<(&Outer, usize)> {
        let entry = self.entry_of(id)?;
        Some((entry.spot.outer.as_ref()?, entry.outer_place))
    }

    /// Returns the place of a work key, among those of the job in written order: that of this
    /// partition of the element with this id. Returns 0 if there is no such element. It takes as
    /// long as `place_of`.
    pub fn key_place_of(&self, id: &T256, partition: u32) -> usize {
        match self.entry_of(id) {
            Some(entry) => entry.spot.first.saturating_add(partition as usize),
            None => 0,
        }
    }
}

/// Returns the outer element of the elements in this flow of an element.
fn outer_at(element: &Element, flow: usize) -> Result<Outer, OutOfMemory> {
    Ok(Outer {
        id: element.id.try_clone()?,
        flow,
    })
}

fn hash_of(id: &T256) -> u64 {
    let mut hasher = FoldHasher::default();
    id.hash(&mut hasher);
    hasher.finish()
}

/// Returns the number of the part in which a hash lies, if the range of hashes has this many equal
/// parts.
fn part_of(hash: u64, parts: usize) -> usize {
    ((u128::from(hash) * parts as u128) >> 64) as usize
}

fn hashes_of(alloc: Global, spots: &Spots) -> Result<Vec<HashedSpot>, OutOfMemory> {
    let mut hashes = Vec::with_capacity(alloc, spots.list.len())?;
    for (number, entry) in spots.list.iter().enumerate() {
        let hash = hash_of(&entry.id);
        hashes.push(HashedSpot { hash, number })?;
    }
    hashes.sort_unstable();
    Ok(hashes)
}

/// Returns the index at which each part begins among rising hashes, and then the index at which the
/// last part ends.
fn starts_of(alloc: Global, hashes: &[HashedSpot]) -> Result<Vec<usize>, OutOfMemory> {
    let mut starts = Vec::with_capacity(alloc, hashes.len().saturating_add(1))?;
    for (place, one) in hashes.iter().enumerate() {
        fill(
            &mut starts,
            part_of(one.hash, hashes.len()).saturating_add(1),
            place,
        )?;
    }
    fill(&mut starts, hashes.len().saturating_add(1), hashes.len())?;
    Ok(starts)
}

/// Adds this place until the list has `many` entries.
fn fill(starts: &mut Vec<usize>, many: usize, place: usize) -> Result<(), OutOfMemory> {
    for _missing in starts.len()..many {
        starts.push(place)?;
    }
    Ok(())
}

/// Adds the elements of a list and the elements inside them. `first` is the place of their first
/// work key, and `outer` the element that contains the list, with its index. Returns the place of
/// the next work key.
#[cycle(indexing)]
fn add_all(
    list: &mut Vec<Entry>,
    elements: &[Element],
    outer: Option<(&Outer, usize)>,
    first: usize,
) -> Result<usize, OutOfMemory> {
    let mut next = first;
    for (place, element) in elements.iter().enumerate() {
        let (outer, outer_place) = match outer {
            None => (None, 0),
            Some((outer, outer_place)) => (Some(outer.try_clone()?), outer_place),
        };
        let spot = Spot {
            place,
            first: next,
            outer,
        };
        let id = element.id.try_clone()?;
        list.push(Entry {
            id,
            spot,
            outer_place,
        })?;
        next = add_inside(list, element, place, next)?;
    }
    Ok(next)
}

/// Adds the elements inside an element, which is at this index of its list. Returns the place of
/// the next work key.
#[cycle(indexing)]
fn add_inside(
    list: &mut Vec<Entry>,
    element: &Element,
    place: usize,
    first: usize,
) -> Result<usize, OutOfMemory> {
    match &element.body {
        Body::Step(step) => match step.partitions {
            Some(count) => Ok(first.saturating_add(count as usize)),
            None => Ok(first.saturating_add(1)),
        },
        Body::Decision { .. } => Ok(first.saturating_add(1)),
        Body::Flow(elements) => {
            let outer = outer_at(element, 0)?;
            Ok(add_all(list, elements.as_slice(), Some((&outer, place)), first)?)
        }
        Body::Split(flows) => {
            let mut next = first;
            for (number, flow) in flows.as_slice().iter().enumerate() {
                let outer = outer_at(element, number)?;
                next = add_all(list, flow.elements.as_slice(), Some((&outer, place)), next)?;
            }
            Ok(next)
        }
    }
}
