// The attached clients.
ghost use Rattle.std.specs.Prelude.{◌≡◌, ◌≢◌, ◌+◌, ◌<◌, ◌^◌, ℕ, true, false, Some, None, Ok, IfOk, IfErr, IfNone, IfSome, OnOk, OnErr, IsSome, is_some, [], option_copied, ◌↔◌, nat_lt};
ghost use Rattle.std.specs.Option.{option_and_then};
ghost use Rattle.std.specs.BTreeMap.{get, btree_map_len};
ghost use Rattle.std.specs.Ordering.{nat_cmp};
ghost use Rattle.object_table.specs.Opened.{At, opened, holders, attributes_in, NoneBelow};
ghost use Rattle.object_table.specs.Renames.{IsReady, IsSettled};
ghost use Rattle.plain_model.specs.Laws.{IsOutside};
ghost use Rattle.open_handles.specs.FileHolders.{file_holders, HOLDERS_MAX};
ghost use Rattle.mount_calls.specs.Held.{handles_below, files_below};

use crate::closing::{close_file, close_handle, hold_file};
use dir_listing::Cursor;
use object_table::{ObjectTree, Unlisted};
use open_handles::{Descriptors, Handle, OpenDirectory, OpenFile, OpenFiles};
use ov_base::{Attributes, Errno, NameList, Path};
use std::alloc::{AllocError, Global};
use std::collections::BTreeMap;
use std::hash::RandomState;

/// The most clients that are attached at a time.
pub const CLIENTS_MAX: usize = 64;

/// The attached clients by number, and the directories and files of the upper that they have open. Numbers start at 0, rise and aren't
/// used again. As many handles hold a directory as its count says, and a file.
#[derive(Drop)]
pub struct Clients {
    attached: BTreeMap<u64, Descriptors>,
    next: u64,
    directories: ObjectTree,
    files: OpenFiles,
    ghost rising: { (n : ℕ) → is_some (get nat_cmp attached n) ≡ true → n < next },
    ghost held: { (k : ℕ) → holders directories k ≡ handles_below (get nat_cmp attached) next k },
    ghost held_files: { (k : ℕ) → file_holders files k ≡ files_below (get nat_cmp attached) next k },
}

impl Clients {
    ghost use Rattle.mount_calls.specs.Attaching.{HasNoRoom, Attaches, Detaches, TakesBack, IsSame, ChangesClient, KeepsPlaces, opened_by, directory_by, file_by, located, path_of};
    ghost use Rattle.open_handles.specs.declared.open_file.FileSource.TheVariants as sources;
    ghost use Rattle.mount_calls.specs.Files.{HasFile, HasFileRoom};
    ghost use Rattle.mount_calls.specs.FreeDescriptors.{IsFull, IsLowestFree};
    ghost use Rattle.mount_calls.specs.Opening.{OpensAt, OpensFile};
    ghost use Rattle.mount_calls.specs.Removing.{IsOpenNowhere, IsOpenAt, RemovesOpen};
    ghost use Rattle.mount_calls.specs.Renaming.{RenamesOpen, SamePlaces};
    ghost use Rattle.open_handles.specs.Listings.{ChangesSlot, Closes, GivesNames, with_listing, with_place};

    /// No clients. The names of open directories and the keys of open files are hashed with these keys.
    pub fn new(alloc: Global, keys: RandomState) -> Result<Clients, AllocError>
        ensures none { IfOk result (λ clients. (n : ℕ) → get nat_cmp clients.attached n ≡ None) }
        ensures first { IfOk result (λ clients. clients.next ≡ 0) }
    {
        let directories = ObjectTree::new(alloc, keys)?;
        directories.lawful();
        Ok(Clients {
            attached: BTreeMap::new(alloc),
            next: 0,
            directories,
            files: OpenFiles::new(alloc, keys),
        })
    }

    /// What always holds, for those who reason about it; it does nothing.
    pub fn lawful(&self)
        ensures held { (k : ℕ) → IsSome (opened self.now.directories k) → 0 < handles_below (get nat_cmp self.now.attached) self.now.next k }
        ensures files { (k : ℕ) → HasFile self.now k ↔ 0 < file_holders self.now.files k }
    {
        self.directories.lawful();
    }

    /// Attaches a client, which has no descriptors, and gives its number. Where 64 are attached it is ENFILE. Any failure changes nothing.
    pub fn attach(&mut self, alloc: Global) -> Result<Result<u64, Errno>, AllocError>
        requires { self.old.next + 1 < 2 ^ 64 }
        ensures attached { IfOk result (λ attaching. IfOk attaching (Attaches self.old self.new)) }
        ensures refusal { IfOk result (λ attaching. IfErr attaching (λ errno. errno ≡ Errno.ENFILE)) }
        ensures full { IfOk result (λ attaching. OnErr attaching (HasNoRoom self.old)) }
        ensures room { IfOk result (λ attaching. OnOk attaching (btree_map_len self.old.attached < 64)) }
        ensures refused { IfOk result (λ attaching. OnErr attaching (self.new ≡ self.old)) }
        ensures err { OnErr result (IsSame self.old self.new) }
    {
        if self.attached.len() >= CLIENTS_MAX {
            return Ok(Err(Errno::ENFILE));
        }
        let number = self.next;
        self.attached.insert(number, Descriptors::new(alloc))?;
        self.next = number + 1;
        Ok(Ok(number))
    }

    /// Takes back the attach of the client that came last and has nothing open: its number is the next one again.
    pub fn take_back(&mut self, number: u64)
        requires last { self.old.next ≡ number + 1 }
        requires none { (d : ℕ) → opened_by self.old number d ≡ None }
        ensures { TakesBack self.old self.new number }
    {
        let _ = self.attached.remove(&number);
        self.next = number;
    }

    /// Detaches a client that has nothing open.
    pub fn detach(&mut self, client: u64)
        requires { (d : ℕ) → opened_by self.old client d ≡ None }
        ensures detaches { Detaches self.old self.new client }
        ensures places { KeepsPlaces self.old self.new }
    {
        let _ = self.attached.remove(&client);
    }

    /// How many clients are attached.
    pub fn len(&self) -> usize
        ensures { result ≡ btree_map_len self.now.attached }
    {
        self.attached.len()
    }

    /// The descriptors of a client; none where it isn't attached.
    pub fn get(&self, client: u64) -> Option<&Descriptors>
        ensures { option_copied result ≡ get nat_cmp self.now.attached client }
    {
        self.attached.get(&client)
    }

    /// What a client has open under a descriptor.
    pub fn opened(&self, client: u64, descriptor: u32) -> Option<&Handle>
        ensures { option_copied result ≡ opened_by self.now client descriptor }
    {
        self.attached.get(&client)?.get(descriptor)
    }

    /// The directory to which a descriptor of a client leads, if it leads to one.
    pub fn directory(&self, client: u64, descriptor: u32) -> Option<&OpenDirectory>
        ensures { option_copied result ≡ directory_by self.now client descriptor }
    {
        self.attached.get(&client)?.directory(descriptor)
    }

    /// The lowest free descriptor of a client, unless all 64 are open.
    pub fn free_descriptor(&self, client: u64) -> Option<u32>
        requires { IsSome (get nat_cmp self.now.attached client) }
        ensures free { IfSome result (IsLowestFree self.now client) }
        ensures full { IfNone result (IsFull self.now client) }
    {
        self.attached.get(&client).unwrap().lowest_free()
    }

    /// Opens the directory at a path under the lowest free descriptor of a client. It fails only
    /// when out of memory, or where as many hold the directory as can be counted.
    pub fn open(&mut self, client: u64, descriptor: u32, path: &Path) -> Result<(), AllocError>
        requires attached { IsSome (get nat_cmp self.old.attached client) }
        requires free { IsLowestFree self.old client descriptor }
        ensures { OpensAt self.old self.new client descriptor path.now result }
    {
        self.directories.lawful();
        let directory = match self.directories.open(path) {
            Ok(directory) => directory,
            Err(fault) => return Err(fault),
        };
        let handle = Handle::Directory(OpenDirectory {
            directory,
            listing: Cursor::new(),
        });
        match self
            .attached
            .get_mut(&client)
            .unwrap()
            .open(descriptor, handle)
        {
            Ok(()) => Ok(()),
            Err(fault) => {
                self.directories.close(directory);
                Err(fault)
            }
        }
    }

    /// Opens a file under the lowest free descriptor of a client. It fails only when out of memory,
    /// or where as many hold the file as can be counted.
    pub fn open_file(
        &mut self,
        client: u64,
        descriptor: u32,
        file: OpenFile,
    ) -> Result<(), AllocError>
        requires attached { IsSome (get nat_cmp self.old.attached client) }
        requires free { IsLowestFree self.old client descriptor }
        ensures { OpensFile self.old self.new client descriptor file result }
    {
        hold_file(&mut self.files, file.source)?;
        match self
            .attached
            .get_mut(&client)
            .unwrap()
            .open(descriptor, Handle::File(file))
        {
            Ok(()) => Ok(()),
            Err(fault) => {
                close_file(&mut self.files, file.source);
                Err(fault)
            }
        }
    }

    /// Makes room for a file that a client opens under its lowest free descriptor, so that the next
    /// `open_reserved` takes no memory. Nothing is opened.
    pub fn reserve_file(&mut self, client: u64, descriptor: u32) -> Result<(), AllocError>
        requires attached { IsSome (get nat_cmp self.old.attached client) }
        requires free { IsLowestFree self.old client descriptor }
        ensures same { ChangesClient self.old self.new client (λ before after. after ≡ before) }
        ensures room { OnOk result (HasFileRoom self.new client descriptor) }
    {
        self.attached.get_mut(&client).unwrap().reserve(descriptor)?;
        self.files.reserve()?;
        Ok(())
    }

    /// Opens a file under the lowest free descriptor of a client, for which there is room. No more
    /// handles hold it than leaves one to be counted.
    pub fn open_reserved(&mut self, client: u64, descriptor: u32, file: OpenFile)
        requires room { HasFileRoom self.old client descriptor }
        requires countable { (k : ℕ) → file.source ≡ sources.Upper k →
            file_holders self.old.files k < HOLDERS_MAX }
        ensures { OpensFile self.old self.new client descriptor file (Ok tt) }
    {
        let _ = hold_file(&mut self.files, file.source);
        self.attached
            .get_mut(&client)
            .unwrap()
            .open_reserved(descriptor, Handle::File(file));
    }

    /// The file to which a descriptor of a client leads, if it leads to one.
    pub fn file(&self, client: u64, descriptor: u32) -> Option<OpenFile>
        ensures { result ≡ file_by self.now client descriptor }
    {
        match self.opened(client, descriptor) {
            Some(Handle::File(file)) => Some(*file),
            _ => None,
        }
    }

    /// Whether one handle more on a file of the upper can be counted.
    pub fn is_countable(&self, key: usize) -> bool
        ensures { result ≡ nat_lt (file_holders self.now.files key) HOLDERS_MAX }
    {
        self.files.is_countable(key)
    }

    /// Whether a handle holds a file of the upper.
    pub fn holds_file(&self, key: usize) -> bool
        ensures { result ≡ nat_lt 0 (file_holders self.now.files key) }
    {
        self.files.is_held(key)
    }

    /// Sets the place, in bytes from the start, of an open file of a client.
    pub fn move_to(&mut self, client: u64, descriptor: u32, place: u64)
        requires { IsSome (file_by self.old client descriptor) }
        ensures { ChangesClient self.old self.new client (λ before after. ChangesSlot before after descriptor (with_place place)) }
    {
        self.attached
            .get_mut(&client)
            .unwrap()
            .move_to(descriptor, place);
    }

    /// The attributes that the directory had that a client has open under a descriptor, when it was removed; none where it wasn't.
    pub fn removed(&self, client: u64, descriptor: u32) -> Option<&Attributes>
        requires { IsSome (directory_by self.now client descriptor) }
        ensures { option_copied result ≡ option_and_then attributes_in (option_and_then (located self.now) (directory_by self.now client descriptor)) }
    {
        self.directories.lawful();
        let handle = self.directory(client, descriptor).unwrap();
        self.directories.removed(handle.directory)
    }

    /// The path of the directory that a client has open under a descriptor; none where it was removed.
    pub fn path(
        &self,
        alloc: Global,
        client: u64,
        descriptor: u32,
    ) -> Result<Option<Path>, AllocError>
        requires { IsSome (directory_by self.now client descriptor) }
        ensures { IfOk result (λ path. path ≡ option_and_then (path_of self.now) (directory_by self.now client descriptor)) }
    {
        self.directories.lawful();
        let handle = self.directory(client, descriptor).unwrap();
        self.directories.path(alloc, handle.directory)
    }

    /// Whether a client has the directory at a path open.
    pub fn is_open_at(&self, path: &Path) -> bool
        ensures shut { result ≡ false → IsOpenNowhere self.now path.now }
        ensures open { result ≡ true → IsOpenAt self.now path.now }
    {
        self.directories.find(path).is_some()
    }

    /// Makes the directory that is open at a path a removed one, with the attributes that it has.
    pub fn remove(&mut self, path: &Path, attributes: Attributes)
        requires not_root { path.now ≢ [] }
        requires below { NoneBelow self.old.directories path.now }
        ensures { RemovesOpen self.old self.new path.now attributes }
    {
        self.directories.remove(path, Unlisted::Removed(attributes));
    }

    /// Takes the memory that `rename` needs to lead what is open at a path or below it to another
    /// path; the root needs none. What is open stays as it is, and an allocation failure
    /// prepares nothing.
    pub fn prepare_rename(&mut self, old: &Path, new: &Path) -> Result<(), AllocError>
        ensures same { SamePlaces self.old self.new }
        ensures ready { OnOk result (old.now ≢ [] → IsReady self.new.directories old.now new.now) }
        ensures settled { OnErr result (IsSettled self.new.directories) }
    {
        match old.split_last() {
            Some(_) => self.directories.prepare_rename(old, new),
            None => Ok(()),
        }
    }

    /// Leads what is open at a path or below it to another path. The directory that is open at that other path, which is replaced, is a
    /// removed one then, with the attributes that it has.
    pub fn rename(&mut self, old: &Path, new: &Path, replaced: Option<Attributes>)
        requires ready { IsReady self.old.directories old.now new.now }
        requires not_root { new.now ≢ [] }
        requires apart { IsOutside old.now new.now }
        requires below { NoneBelow self.old.directories new.now }
        requires replaced { (k : ℕ) → opened self.old.directories k ≡ Some (At new.now) → IsSome replaced }
        ensures renames { RenamesOpen self.old self.new old.now new.now replaced }
        ensures settled { IsSettled self.new.directories }
    {
        self.directories
            .rename(old, new, replaced.map(Unlisted::Removed));
    }

    /// Gives up a rename that was prepared, and lets go the memory that it took.
    pub fn cancel_rename(&mut self)
        ensures same { SamePlaces self.old self.new }
        ensures settled { IsSettled self.new.directories }
    {
        self.directories.cancel_rename();
    }

    /// Keeps a listing of an open directory of a client.
    pub fn keep_listing(&mut self, client: u64, descriptor: u32, listing: Cursor)
        requires { IsSome (directory_by self.old client descriptor) }
        ensures { ChangesClient self.old self.new client (λ before after. ChangesSlot before after descriptor (with_listing listing)) }
    {
        self.attached
            .get_mut(&client)
            .unwrap()
            .keep_listing(descriptor, listing);
    }

    /// Lets the listing of an open directory of a client go.
    pub fn rewind(&mut self, client: u64, descriptor: u32)
        requires { IsSome (directory_by self.old client descriptor) }
        ensures { ChangesClient self.old self.new client (λ before after. ChangesSlot before after descriptor (with_listing None)) }
    {
        self.attached.get_mut(&client).unwrap().rewind(descriptor);
    }

    /// Gives the next names of the listing of an open directory of a client, at most so many. An
    /// allocation failure gives none and changes nothing.
    pub fn next_names(
        &mut self,
        alloc: Global,
        client: u64,
        descriptor: u32,
        count: usize,
    ) -> Result<NameList, AllocError>
        requires { IsSome (directory_by self.old client descriptor) }
        ensures { ChangesClient self.old self.new client (λ before after. GivesNames before after descriptor count result) }
    {
        self.attached
            .get_mut(&client)
            .unwrap()
            .next_names(alloc, descriptor, count)
    }

    /// Closes a descriptor of a client, and gives what it led to. One that isn't open is EBADF.
    pub fn close(&mut self, client: u64, descriptor: u32) -> Result<Handle, Errno>
        requires { IsSome (get nat_cmp self.old.attached client) }
        ensures { ChangesClient self.old self.new client (λ before after. Closes before after descriptor result) }
    {
        let Some(handle) = self.attached.get_mut(&client).unwrap().take(descriptor) else {
            return Err(Errno::EBADF);
        };
        close_handle(&mut self.directories, &mut self.files, &handle);
        Ok(handle)
    }
}
