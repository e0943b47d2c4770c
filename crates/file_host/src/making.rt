// Reading a file, and making it anew.
ghost use Rattle.std.specs.Prelude.{◌≡◌, ◌≤◌, ◌+◌, ◌++◌, List, ℕ, [], length, IfOk, OnOk};
ghost use Rattle.std.specs.Option.{option_map};
ghost use Rattle.log_host.specs.Host.{Holds, Torn};
ghost use Rattle.log_host.specs.Past.{leaves_after};
ghost use Rattle.file_host.specs.Calls.{file_calls};
ghost use Rattle.file_host.specs.Making.{AtEachMoment, AtEachMomentOf, Draft, IsBeforeOrWhole, IsOpening, Named, keeping, making, named, reading, resuming};

use crate::disk::Disk;
use crate::file_fault::FileFault;
use std::alloc::Global;

/// Opens and locks the file of this name, and reads all its bytes. Returns `None` if there is no
/// such file.
///
/// # Errors
///
/// Those of [`Disk::take`] and [`Disk::read`], except `Missing`.
pub fn read_file<D: Disk>(
    disk: &mut D,
    alloc: Global,
    name: &str,
) -> Result<Option<Vec<u8>>, FileFault>
    requires opening { IsOpening (D.past disk.old) }
    ensures opening { IsOpening (D.past disk.new) }
    ensures read { IfOk result (λ file. D.past disk.new ≡ reading name.now (option_map (λ bytes. bytes.items) file) (D.past disk.old)) }
{
    match disk.take(name) {
        Ok(()) => {
            let bytes = disk.read(alloc)?;
            Ok(Some(bytes))
        }
        Err(FileFault::Missing) => Ok(None),
        Err(fault) => Err(fault),
    }
}

// Keeps bytes beside the file, if there are any, with their name in its folder.
fn keep<D: Disk>(disk: &mut D, name: &str, cut: &[u8]) -> Result<(), FileFault>
    requires opening { IsOpening (D.past disk.old) }
    ensures opening { IsOpening (D.past disk.new) }
    ensures kept { OnOk result (D.past disk.new ≡ keeping name.now cut.now (D.past disk.old)) }
{
    match cut {
        [] => Ok(()),
        _ => {
            disk.keep(name, cut)?;
            disk.sync_folder(name)?;
            Ok(())
        }
    }
}

/// Makes the file of this name anew, with these bytes. If bytes are cut off, they are kept beside
/// the file first, and the folder is synced. The draft gets the name after all its bytes are on the
/// disk, and then the folder is synced.
///
/// # Errors
///
/// Those of [`Disk::keep`] and [`Disk::draft`], and `Unavailable` if the draft cannot be written,
/// synced or renamed, or the folder not synced. A crash leaves what the name stood for before, or
/// the whole new file.
pub fn make_anew<D: Disk>(
    disk: &mut D,
    name: &str,
    cut: &[u8],
    bytes: &[u8],
) -> Result<(), FileFault>
    requires opening { IsOpening (D.past disk.old) }
    ensures made { OnOk result (D.past disk.new ≡ making name.now bytes.now ++ keeping name.now cut.now (D.past disk.old)) }
    ensures stands { OnOk result ((n : Named) → named (D.past disk.new) n → n ≡ Draft bytes.now) }
    ensures any_moment { AtEachMoment (D.past disk.new) (IsBeforeOrWhole bytes.now) }
{
    keep(disk, name, cut)?;
    make(disk, name, bytes)
}

/// Goes on with the file of this name that was taken and read: writes bytes over those at a place of
/// it, and syncs it and its folder.
///
/// # Errors
///
/// `Unavailable` if the file cannot be written or synced, or the folder not synced. A crash leaves
/// the file as it was read, but for any bytes in that place.
pub fn resume<D: Disk>(disk: &mut D, name: &str, at: usize, bytes: &[u8]) -> Result<(), FileFault>
    requires opening { IsOpening (D.past disk.old) }
    ensures resumed { OnOk result (D.past disk.new ≡ resuming name.now at bytes.now ++ D.past disk.old) }
    ensures stands { OnOk result ((file c : List ℕ) → leaves_after file (file_calls (D.past disk.new)) c [] → Holds file at bytes.now c) }
    ensures any_moment { (file : List ℕ) → at + length bytes.now ≤ length file → AtEachMomentOf file (D.past disk.new) (Torn at (length bytes.now) file) }
{
    disk.write_at(at, bytes)?;
    disk.sync()?;
    disk.sync_folder(name)?;
    Ok(())
}

// Makes the draft, writes and syncs it, and gives it the name.
fn make<D: Disk>(disk: &mut D, name: &str, bytes: &[u8]) -> Result<(), FileFault>
    requires opening { IsOpening (D.past disk.old) }
    ensures made { OnOk result (D.past disk.new ≡ making name.now bytes.now ++ D.past disk.old) }
    ensures stands { OnOk result ((n : Named) → named (D.past disk.new) n → n ≡ Draft bytes.now) }
    ensures any_moment { AtEachMoment (D.past disk.new) (IsBeforeOrWhole bytes.now) }
{
    disk.draft(name)?;
    disk.write_at(0, bytes)?;
    disk.sync()?;
    disk.rename(name)?;
    disk.sync_folder(name)?;
    Ok(())
}
