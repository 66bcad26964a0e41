// Closing what a client has open.
ghost use Rattle.std.specs.Prelude.{◌≡◌, ◌+◌, ℕ, ◌≤◌, ◌∷◌, [], Some, OnOk, OnErr, IsOk, ◌<◌};
ghost use Rattle.open_handles.specs.FileHolders.{file_holders, room, HOLDERS_MAX};
ghost use Rattle.open_handles.specs.declared.open_file.FileSource.TheVariants as sources;
ghost use Rattle.open_handles.specs.Holding.{handles_on, files_on, is_upper};
ghost use Rattle.object_table.specs.Opened.{holders};
ghost use Rattle.mount_calls.specs.Held.{ClosesAll, ReleasesAll};

use object_table::ObjectTree;
use open_handles::{FileSource, Handle, OpenFiles};
use std::alloc::AllocError;

/// Closes one handle: on a directory, on a file of the upper, or on a file of a lower layer, of which nobody counts the handles.
pub(crate) fn close_handle(directories: &mut ObjectTree, files: &mut OpenFiles, handle: &Handle)
    requires directories { (k : ℕ) → handles_on (Some handle.now ∷ []) k ≤ holders directories.old k }
    requires files { (k : ℕ) → files_on (Some handle.now ∷ []) k ≤ file_holders files.old k }
    ensures directories { ClosesAll directories.old directories.new (Some handle.now ∷ []) }
    ensures files { ReleasesAll files.old files.new (Some handle.now ∷ []) }
{
    directories.lawful();
    match handle {
        Handle::Directory(directory) => directories.close(directory.directory),
        Handle::File(file) => close_file(files, file.source),
    }
}

/// Counts one handle more on a file of the upper; nobody counts those of a lower layer's. It fails
/// when out of memory, and where as many hold the file as can be counted, and changes nothing then.
pub(crate) fn hold_file(files: &mut OpenFiles, source: FileSource) -> Result<(), AllocError>
    ensures ok { OnOk result ((k : ℕ) → file_holders files.new k ≡ file_holders files.old k + is_upper source k) }
    ensures err { OnErr result ((k : ℕ) → file_holders files.new k ≡ file_holders files.old k) }
    ensures succeeds { 0 < room files.old → ((k : ℕ) → source ≡ sources.Upper k → file_holders files.old k < HOLDERS_MAX) → IsOk result }
{
    match source {
        FileSource::Upper(key) => files.hold(key),
        FileSource::Lower { layer: _, key: _ } => Ok(()),
    }
}

/// Closes one handle on a file.
pub(crate) fn close_file(files: &mut OpenFiles, source: FileSource)
    requires { (k : ℕ) → is_upper source k ≤ file_holders files.old k }
    ensures { (k : ℕ) → file_holders files.new k + is_upper source k ≡ file_holders files.old k }
{
    if let FileSource::Upper(key) = source {
        let _ = files.release(key);
    }
}
