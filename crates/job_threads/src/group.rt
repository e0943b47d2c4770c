ghost use Rattle.std.specs.Prelude.{◌≡◌, ◌<◌, ◌≤◌, ◌-◌, ◌++◌, ◌∷◌, [], List, ℕ, map, length, string_bytes, option_map, IfOk, OnErr, OnOk, vec_len};
ghost use Rattle.job_threads.specs.Meaning.{Known, means_at};
ghost use Rattle.job_threads.specs.Kits.{AreWithin, IsWithin, work_of, FaultIn, FaultAt, HoldsSame, Written};
ghost use Rattle.job_threads.specs.Groups.{unless_empty};
ghost use Rattle.job_threads.specs.Steps.{Processes, ReadsItem, ReadsGroup, Writes};

use crate::artifact::ArtifactFault;
use crate::kit::{Artifacts, Roles};
use std::alloc::Global;

/// The result of reading and processing the next item.
#[derive(Drop)]
pub(crate) enum ItemRead {
    End,
    Dropped,
    Kept(String),
}

/// A group after reading and processing.
#[derive(Drop)]
pub(crate) struct Group {
    pub(crate) read: u32,
    pub(crate) kept: Vec<String>,
    pub(crate) ended: bool,
}

/// The reason why no group was read.
#[derive(Clone, Copy)]
pub(crate) enum Trouble {
    Fault,
    Memory,
}

/// Processes an item. Without a processor, returns it unchanged.
pub(crate) fn processed<K: Artifacts>(
    kit: &mut K,
    processor: Option<usize>,
    item: String,
) -> Result<Option<String>, ArtifactFault>
    requires { IsWithin processor (K.seen kit.old) }
    ensures { Processes processor (string_bytes item) result (K.seen kit.old) (K.seen kit.new) }
{
    match processor {
        None => Ok(Some(item)),
        Some(at) => kit.process(at, item.as_str()),
    }
}

/// Reads the next item, and processes it.
pub(crate) fn read_item<K: Artifacts>(kit: &mut K, roles: Roles) -> Result<ItemRead, ArtifactFault>
    requires { AreWithin roles (K.seen kit.old) }
    ensures { ReadsItem roles result (K.seen kit.old) (K.seen kit.new) }
{
    match kit.read(roles.reader) {
        Err(fault) => Err(fault),
        Ok(None) => Ok(ItemRead::End),
        Ok(Some(item)) => match processed(kit, roles.processor, item) {
            Err(fault) => Err(fault),
            Ok(None) => Ok(ItemRead::Dropped),
            Ok(Some(item)) => Ok(ItemRead::Kept(item)),
        },
    }
}

/// Reads and processes a group.
pub(crate) fn read_group<K: Artifacts>(
    alloc: Global,
    kit: &mut K,
    roles: Roles,
    size: u32,
) -> Result<Group, Trouble>
    requires { AreWithin roles (K.seen kit.old) }
    ensures { ReadsGroup roles size result (K.seen kit.old) (K.seen kit.new) }
{
    let mut kept = Vec::new(alloc);
    let mut read: u32 = 0;
    while read < size {
        match read_item(kit, roles) {
            Err(_) => return Err(Trouble::Fault),
            Ok(ItemRead::End) => {
                return Ok(Group {
                    read,
                    kept,
                    ended: true,
                });
            }
            Ok(ItemRead::Dropped) => read += 1,
            Ok(ItemRead::Kept(item)) => match kept.push(item) {
                Err(_) => return Err(Trouble::Memory),
                Ok(()) => read += 1,
            },
        }
    }
    Ok(Group {
        read,
        kept,
        ended: false,
    })
}

/// Writes the items of a group that weren't filtered out, if there are any.
pub(crate) fn write_kept<K: Artifacts>(
    kit: &mut K,
    writer: usize,
    kept: &[String],
) -> Result<(), ArtifactFault>
    requires { writer < length (K.seen kit.old) }
    ensures { Writes writer (map string_bytes kept.now) result (K.seen kit.old) (K.seen kit.new) }
{
    if kept.is_empty() {
        return Ok(());
    }
    kit.write(writer, kept)
}
