ghost use Rattle.std.specs.Prelude.{◌≡◌, ◌++◌, ◌∷◌, ℕ, List, map, IfOk, OnOk, bytes_eq};
ghost use Rattle.std.specs.HashSet as hash;
ghost use Rattle.jsl_model.specs.Names.{has_twice, are_among, is_among, unheld, distinct};

use batch_ids::OutOfMemory;
use std::alloc::Global;
use std::collections::HashSet;

/// Checks whether a name is there twice. It takes time about proportional to the number of names,
/// and memory at most proportional to it. Returns `OutOfMemory` if memory is refused.
pub fn has_twice(alloc: Global, names: &[&str]) -> Result<bool, OutOfMemory>
    ensures { IfOk result (λ twice. twice ≡ has_twice (map (λ name. name.now) names.now)) }
{
    let mut seen = HashSet::new(alloc);
    for name in names {
        if !seen.insert(*name)? {
            return Ok(true);
        }
    }
    Ok(false)
}

/// Checks whether each of the names is in `held`. It takes time about proportional to the number of
/// names in both lists, and memory proportional to the number of names in `held`. Returns
/// `OutOfMemory` if memory is refused.
pub fn are_among(alloc: Global, names: &[&str], held: &[&str]) -> Result<bool, OutOfMemory>
    ensures { IfOk result (λ among. among
        ≡ are_among (map (λ name. name.now) held.now) (map (λ name. name.now) names.now)) }
{
    let set = set_of(alloc, held)?;
    for name in names {
        if !set.contains(*name) {
            return Ok(false);
        }
    }
    Ok(true)
}

fn set_of<'a>(alloc: Global, names: &[&'a str]) -> Result<HashSet<&'a str>, OutOfMemory>
    ensures { IfOk result (λ set. (q : List ℕ) → hash.contains_by (λ key. bytes_eq q key.now) set
        ≡ is_among (map (λ name. name.now) names.now) q) }
{
    let mut set = HashSet::new(alloc);
    for name in names {
        set.insert(*name)?;
    }
    Ok(set)
}

/// Returns each of these names once, in the order of first use. It takes time and memory about
/// proportional to the number of names. Returns `OutOfMemory` if memory is refused.
pub fn distinct<'a>(alloc: Global, names: &[&'a str]) -> Result<Vec<&'a str>, OutOfMemory>
    ensures { IfOk result (λ kept. map (λ name. name.now) kept.items
        ≡ distinct (map (λ name. name.now) names.now)) }
{
    let mut seen = HashSet::new(alloc);
    let mut kept = Vec::new(alloc);
    for name in names {
        add_new(*name, &mut seen, &mut kept)?;
    }
    Ok(kept)
}

/// Adds a name that has not been seen yet.
fn add_new<'a>(
    name: &'a str,
    seen: &mut HashSet<&'a str>,
    kept: &mut Vec<&'a str>,
) -> Result<(), OutOfMemory>
    ensures { OnOk result ((rest : List (List ℕ)) → map (λ name. name.now) kept.new.items
        ++ unheld (λ other. hash.contains_by (λ key. bytes_eq other key.now) seen.new) rest
        ≡ map (λ name. name.now) kept.old.items
        ++ unheld (λ other. hash.contains_by (λ key. bytes_eq other key.now) seen.old)
        (name.now ∷ rest)) }
{
    if !seen.insert(name)? {
        return Ok(());
    }
    kept.push(name)?;
    Ok(())
}
