// The laws of opens of any flags and of calls by a descriptor, each as the contract of a function that does nothing.
ghost use Rattle.mount_laws.specs.Descriptors.{LawOfDirectoryHandle, LawOfFileList, LawOfFileSeek, LawOfFstat, LawOfHandleClose, LawOfRead, LawOfTruncate, LawOfUnopened, LawOfWrite};
ghost use Rattle.mount_laws.specs.Opening.{LawOfOpenRefusal, LawOfOpenedForReading, LawOfOpenedForWriting, LawOfOpenedMaking};

/// `open` of any flags is refused for its flags and its mode, as the layers' walk of the parents is, for what they show and for want of a
/// descriptor (POSIX.1-2017, open(), as Linux's namei.c asks for its errors).
pub fn law_of_open_refusal()
    ensures { LawOfOpenRefusal }
{}

/// An `open` for reading of what is shown leads the lowest free descriptor to a new handle on it, which keeps a file of a lower layer as
/// it is now; nothing else changes (overlayfs.rst, "Non-standard behavior").
pub fn law_of_opened_for_reading()
    ensures { LawOfOpenedForReading }
{}

/// An `open` for writing of what is shown leads the lowest free descriptor to a new handle on it, a file, which becomes the upper's own
/// and is emptied where that is asked for; nothing else changes.
pub fn law_of_opened_for_writing()
    ensures { LawOfOpenedForWriting }
{}

/// An `open` where nothing is shown leads the lowest free descriptor to a new handle on the file that it makes (POSIX.1-2017, open()).
/// `law_of_file_made` says what becomes of the tree.
pub fn law_of_opened_making()
    ensures { LawOfOpenedMaking }
{}

/// `read` by a handle on a file gives the next of the bytes that it sees, and leaves it after them; nothing else changes
/// (POSIX.1-2017, read()).
pub fn law_of_read()
    ensures { LawOfRead }
{}

/// `write` puts what fits at the handle's place, or at the end where it appends, and leaves it after that; nothing else changes
/// (POSIX.1-2017, write()).
pub fn law_of_write()
    ensures { LawOfWrite }
{}

/// A seek by a handle on a file leads from the start, the place or the end; nothing else changes (POSIX.1-2017, lseek()).
pub fn law_of_file_seek()
    ensures { LawOfFileSeek }
{}

/// `ftruncate` cuts the file or fills it with zeros; nothing else changes (POSIX.1-2017, ftruncate()).
pub fn law_of_truncate()
    ensures { LawOfTruncate }
{}

/// `fstat` answers the status of what the handle sees, and changes nothing (POSIX.1-2017, fstat()).
pub fn law_of_fstat()
    ensures { LawOfFstat }
{}

/// `close` frees the descriptor, and its node goes where it has neither name nor handle then; nothing else changes
/// (POSIX.1-2017, close()).
pub fn law_of_handle_close()
    ensures { LawOfHandleClose }
{}

/// A file has no names to list.
pub fn law_of_file_list()
    ensures { LawOfFileList }
{}

/// A directory is not read, nor written or truncated by a handle without write access; `fstat` answers its status (POSIX.1-2017, read()).
pub fn law_of_directory_handle()
    ensures { LawOfDirectoryHandle }
{}

/// A descriptor that is not open is EBADF for the calls of files too.
pub fn law_of_unopened()
    ensures { LawOfUnopened }
{}
