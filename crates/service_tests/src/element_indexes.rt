//! A job's index of elements agrees with an ordered map of their ids.
use batch_ids::{OutOfMemory, T256};
use jsl_json::read_catalogue;
use jsl_model::{Body, Catalogue, Element, Job, Outer};
use std::alloc::{AllocError, Global};
use std::collections::BTreeMap;
use std::hash::{FoldHasher, Hash, Hasher};
use std::test::Fail;

/// The position of an element.
#[derive(Debug, Drop)]
pub(crate) struct Spot {
    /// Its index in its list.
    place: usize,
    /// The index of its first work key, among the job's work keys.
    first: usize,
    /// The element around its list; `None` for the job's own list.
    outer: Option<Outer>,
}

fn copy_of(outer: &Outer) -> Result<Outer, OutOfMemory> {
    Ok(Outer {
        id: outer.id.try_clone()?,
        flow: outer.flow,
    })
}

/// Returns the element and the flow around a list.
fn outer_at(element: &Element, flow: usize) -> Result<Outer, OutOfMemory> {
    Ok(Outer {
        id: element.id.try_clone()?,
        flow,
    })
}

/// Adds an element with this position.
fn add_spot(spots: &mut BTreeMap<T256, Spot>, id: T256, spot: Spot) -> Result<(), OutOfMemory> {
    match spots.insert(id, spot) {
        Ok(_) => Ok(()),
        Err(_) => Err(AllocError),
    }
}

/// Adds the elements of a list and those inside them. Takes the index of the first work key, and
/// returns that of the next one.
#[cycle(indexing)]
pub(crate) fn add_all(
    spots: &mut BTreeMap<T256, Spot>,
    elements: &[Element],
    outer: Option<&Outer>,
    first: usize,
) -> Result<usize, OutOfMemory> {
    let mut next = first;
    for (place, element) in elements.iter().enumerate() {
        let outer = match outer {
            None => None,
            Some(outer) => Some(copy_of(outer)?),
        };
        let spot = Spot {
            place,
            first: next,
            outer,
        };
        add_spot(spots, element.id.try_clone()?, spot)?;
        next = add_inside(spots, element, next)?;
    }
    Ok(next)
}

/// Adds the elements inside an element. Returns the index of the next work key.
#[cycle(indexing)]
fn add_inside(
    spots: &mut BTreeMap<T256, Spot>,
    element: &Element,
    first: usize,
) -> Result<usize, OutOfMemory> {
    match &element.body {
        Body::Step(step) => match step.partitions {
            Some(count) => Ok(first.saturating_add(count as usize)),
            None => Ok(first.saturating_add(1)),
        },
        Body::Decision { .. } => Ok(first.saturating_add(1)),
        Body::Flow(elements) => {
            let outer = outer_at(element, 0)?;
            Ok(add_all(spots, elements.as_slice(), Some(&outer), first)?)
        }
        Body::Split(flows) => {
            let mut next = first;
            for (place, flow) in flows.as_slice().iter().enumerate() {
                let outer = outer_at(element, place)?;
                next = add_all(spots, flow.elements.as_slice(), Some(&outer), next)?;
            }
            Ok(next)
        }
    }
}

fn is_same_outer(one: Option<&Outer>, other: Option<&Outer>) -> bool {
    match (one, other) {
        (None, None) => true,
        (Some(one), Some(other)) => one.id == other.id && one.flow == other.flow,
        _ => false,
    }
}

/// Returns the index of the element around a list, in its own list.
fn outer_place(spots: &BTreeMap<T256, Spot>, spot: &Spot) -> Option<usize> {
    let outer = spot.outer.as_ref()?;
    Some(spots.get(&outer.id)?.place)
}

/// Checks whether the job's index has an element at this position.
fn is_found(job: &Job, spots: &BTreeMap<T256, Spot>, id: &T256, spot: &Spot) -> bool {
    let index = job.index();
    let with_place = index.outer_with_place(id);
    index.place_of(id) == spot.place
        && index.key_place_of(id, 2) == spot.first.saturating_add(2)
        && is_same_outer(index.outer_of(id), spot.outer.as_ref())
        && is_same_outer(with_place.map(|found| found.0), spot.outer.as_ref())
        && with_place.map(|found| found.1) == outer_place(spots, spot)
}

/// Checks whether the job's index agrees with the map at each element.
fn are_found(job: &Job, spots: &BTreeMap<T256, Spot>) -> bool {
    for (id, spot) in spots.iter() {
        if !is_found(job, spots, id, spot) {
            return false;
        }
    }
    true
}

/// Checks whether the job's index has no element with this id.
fn is_nowhere(job: &Job, id: &T256) -> bool {
    let index = job.index();
    index.outer_of(id).is_none()
        && index.outer_with_place(id).is_none()
        && index.place_of(id) == 0
        && index.key_place_of(id, 2) == 0
}

/// Returns the number of a job's elements, if its index agrees with the map and has nothing else.
fn count_of_found(alloc: Global, job: &Job) -> Result<Option<usize>, Fail> {
    let mut spots = BTreeMap::new(alloc);
    add_all(&mut spots, job.elements(), None, 0)?;
    let none = T256::new(alloc, "none")?;
    Ok(if are_found(job, &spots) && is_nowhere(job, &none) {
        Some(spots.len())
    } else {
        None
    })
}

/// Returns a step of three partitions.
fn step_of(alloc: Global, id: &str) -> Result<String, AllocError> {
    format!(in alloc;
        "{{\"kind\":\"step\",\"id\":\"{id}\",\"partitions\":3,\"batchlet\":{{\"ref\":\"ok\"}}}}"
    )
}

/// Returns steps of three partitions, numbered from `first` on.
pub(crate) fn steps(alloc: Global, first: usize, count: usize) -> Result<String, AllocError> {
    let mut text = String::new(alloc);
    for step in 0..count {
        if step > 0 {
            text.push_str(",")?;
        }
        let number = first.saturating_add(step);
        let id = format!(in alloc; "e{number}")?;
        let one = step_of(alloc, id.as_str())?;
        text.push_str(one.as_str())?;
    }
    Ok(text)
}

/// Returns a split whose flows have two steps each.
pub(crate) fn split(alloc: Global, count: usize) -> Result<String, AllocError> {
    let mut text = String::from_str(alloc, "{\"kind\":\"split\",\"id\":\"k\",\"flows\":[")?;
    for flow in 0..count {
        let comma = if flow > 0 { "," } else { "" };
        let inside = steps(alloc, flow.saturating_mul(2), 2)?;
        let one = format!(in alloc;
            "{comma}{{\"kind\":\"flow\",\"id\":\"f{flow}\",\"elements\":[{inside}]}}"
        )?;
        text.push_str(one.as_str())?;
    }
    text.push_str("]}")?;
    Ok(text)
}

/// Returns nested flows, each after a step.
pub(crate) fn nest(alloc: Global, depth: usize) -> Result<String, AllocError> {
    let mut text = steps(alloc, 0, 3)?;
    for level in 0..depth {
        let before = steps(alloc, level.saturating_add(1_000), 1)?;
        text = format!(in alloc;
            "{before},{{\"kind\":\"flow\",\"id\":\"n{level}\",\"elements\":[{text}]}}"
        )?;
    }
    Ok(text)
}

/// Returns a catalogue of a job `j` with these elements.
pub(crate) fn catalogue_of(alloc: Global, elements: &str) -> Result<Catalogue, Fail> {
    let text = format!(in alloc; "{{\"jobs\":[{{\"id\":\"j\",\"elements\":[{elements}]}}]}}")?;
    Ok(read_catalogue(alloc, text.as_bytes())?)
}

/// Returns the number of elements of this job, if its index agrees with the map and has nothing
/// else.
fn found_in(alloc: Global, elements: &str) -> Result<Option<usize>, Fail> {
    let catalogue = catalogue_of(alloc, elements)?;
    let found = match catalogue.job("j") {
        Some(job) => count_of_found(alloc, job),
        None => Ok(None),
    };
    drop(catalogue);
    found
}

#[test]
fn each_element_of_a_list_is_found(rt: HostRuntime) -> Result<(), Fail> {
    let alloc = rt.alloc();
    for count in [1usize, 2, 3, 8, 9, 100, 1_000] {
        let elements = steps(alloc, 0, count)?;
        assert_eq!(rt; found_in(alloc, elements.as_str())?, Some(count));
    }
    Ok(())
}

#[test]
fn each_element_of_flows_is_found(rt: HostRuntime) -> Result<(), Fail> {
    let alloc = rt.alloc();
    for count in [1usize, 8, 9, 300] {
        let elements = split(alloc, count)?;
        assert_eq!(rt; found_in(alloc, elements.as_str())?, Some(2 * count + 1));
    }
    for depth in [1usize, 15] {
        let elements = nest(alloc, depth)?;
        assert_eq!(rt; found_in(alloc, elements.as_str())?, Some(2 * depth + 3));
    }
    Ok(())
}

/// Returns an id of 48 bytes with this number. All such ids have the same hash.
///
/// The index hashes by a `FoldHasher`, which folds 16 bytes at a time. It combines the first 8 with
/// its state by exclusive or and the next 8 with a constant, and multiplies both. Here the first 16
/// bytes lead to a state that is equal to the next 8 bytes. So the second product is 0 for every
/// number, and the last 16 bytes are the same in each id.
fn meeting_id(alloc: Global, number: usize) -> Result<T256, Fail> {
    let id = format!(in alloc; "id-8715350726942n[F*{{'(d{number:08}................")?;
    Ok(T256::new(alloc, id.as_str())?)
}

/// Returns steps with such ids, whose numbers are even and fall.
fn meeting_steps(alloc: Global, count: usize) -> Result<String, Fail> {
    let mut text = String::new(alloc);
    for place in 0..count {
        if place > 0 {
            text.push_str(",")?;
        }
        let number = count.saturating_sub(place).saturating_mul(2);
        let id = meeting_id(alloc, number)?;
        let one = step_of(alloc, id.as_str())?;
        text.push_str(one.as_str())?;
    }
    Ok(text)
}

/// Checks whether a job's index has no element with such an id of an odd number.
fn has_no_odd(alloc: Global, job: &Job, count: usize) -> Result<bool, Fail> {
    for place in 0..count {
        let number = place.saturating_mul(2).saturating_add(1);
        let id = meeting_id(alloc, number)?;
        if !is_nowhere(job, &id) {
            return Ok(false);
        }
    }
    Ok(true)
}

/// Checks the same of the job with these elements.
fn has_no_odd_in(alloc: Global, elements: &str, count: usize) -> Result<bool, Fail> {
    let catalogue = catalogue_of(alloc, elements)?;
    let has_none = match catalogue.job("j") {
        Some(job) => has_no_odd(alloc, job, count),
        None => Ok(false),
    };
    drop(catalogue);
    has_none
}

#[test]
fn elements_whose_ids_meet_are_told_apart(rt: HostRuntime) -> Result<(), Fail> {
    let alloc = rt.alloc();
    let list = meeting_steps(alloc, 1_000)?;
    assert_eq!(rt; found_in(alloc, list.as_str())?, Some(1_000));
    assert!(rt; has_no_odd_in(alloc, list.as_str(), 1_002)?);
    let inside = meeting_steps(alloc, 999)?;
    let flow = format!(in alloc; "{{\"kind\":\"flow\",\"id\":\"f\",\"elements\":[{inside}]}}")?;
    assert_eq!(rt; found_in(alloc, flow.as_str())?, Some(1_000));
    assert!(rt; has_no_odd_in(alloc, flow.as_str(), 1_002)?);
    Ok(())
}

/// Returns the index's hash of an id.
fn hash_of(id: &T256) -> u64 {
    let mut hasher = FoldHasher::default();
    id.hash(&mut hasher);
    hasher.finish()
}

/// Returns the hash of the id with this number.
fn meeting_hash(alloc: Global, number: usize) -> Result<u64, Fail> {
    let id = meeting_id(alloc, number)?;
    Ok(hash_of(&id))
}

/// Without equal hashes the test above would show nothing.
#[test]
fn hashes_of_these_ids_meet(rt: HostRuntime) -> Result<(), Fail> {
    let hash = meeting_hash(rt.alloc(), 0)?;
    for number in 1..2_003usize {
        assert_eq!(rt; meeting_hash(rt.alloc(), number)?, hash, "{number}");
    }
    Ok(())
}
