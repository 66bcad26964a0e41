// What a client does again and again, by the words of the command line.
use crate::trees::BLOCK;

/// How many bytes a long read or write has: the most that one call may.
pub const LONG: u32 = 65_536;

/// What a client does with what stands at depth 4, where nothing else is said, by one or more calls.
#[derive(Clone, Copy)]
pub enum Deed {
    /// `stat` of one file.
    Stat,
    /// `stat` of 256 files in turn.
    StatMany,
    /// `stat` of one name that isn't there.
    Absent,
    /// `stat` of names that aren't there, each another one.
    AbsentNew,
    /// A symbolic link made and removed.
    Symlink,
    /// A directory made and removed, where each layer has about 10,000 names.
    Mkdir,
    /// A name of the lowest layer removed in a directory of 10,000, each time another one, so that a whiteout is left.
    Whiteout,
    /// Opening a file of the lowest layer, reading its 4,096 bytes and closing it, 256 files in turn.
    Read,
    /// Opening, listing and closing a directory of 256 names, part of them from each lower layer.
    List,
    /// The same of 10,000 names of the lowest layer.
    ListWide,
    /// Making a file by opening it, closing it and removing it.
    Create,
    /// Opening a file of so many bytes for writing, for which it is copied up, and closing it, each time another one.
    Copy(u32),
    /// The same by another name of one lower file each time, and removing it, so that a copy takes the memory of the one before.
    CopyAgain(u32),
    /// The same of a file that is a hole.
    CopyHole(u32),
    /// Opening a file of so many bytes for writing, writing 4,096 bytes and closing it, each time another one.
    Touch(u32),
    /// The same by another name of one lower file each time, and removing it.
    TouchAgain(u32),
    /// Reading 65,536 bytes of an open file of 1 MiB, each time the first.
    ReadLong,
    /// Writing 65,536 bytes over those of such a file of the upper.
    WriteLong,
    /// Writing 4,096 bytes there.
    WriteBlock,
    /// Giving a file of the upper a further name and removing that.
    Link,
    /// Renaming a file of the upper, to and fro.
    Rename,
    /// Setting a user attribute that is there, on a file of the upper.
    SetAttribute,
    /// Changing the mode of a lower file of so many bytes, each time another one, on a mount that copies them or doesn't.
    Chmod { size: u32, metacopy: bool },
    /// `stat` of a file whose mode was changed, for which its bytes were copied or weren't.
    StatChanged { metacopy: bool },
    /// Opening such a file, reading its 4,096 bytes and closing it.
    ReadChanged { metacopy: bool },
}

impl Deed {
    /// The deed of a word of the command line.
    pub fn named(word: &str) -> Option<Deed> {
        match (asking(word), changing(word)) {
            (Some(deed), _) => Some(deed),
            (None, Some(deed)) => Some(deed),
            (None, None) => changed(word),
        }
    }

    /// Whether it is done on a mount that copies files up without their bytes.
    pub fn is_with_metacopy(self) -> bool {
        match self {
            Deed::Chmod { metacopy, .. }
            | Deed::StatChanged { metacopy }
            | Deed::ReadChanged { metacopy } => metacopy,
            _ => false,
        }
    }

    /// How many bytes each of its reads is to give.
    pub fn bytes_read(self) -> u32 {
        match self {
            Deed::ReadLong => LONG,
            _ => BLOCK,
        }
    }

    /// Whether its calls are for names that aren't there.
    pub fn is_for_absent_names(self) -> bool {
        matches!(self, Deed::Absent | Deed::AbsentNew)
    }
}

// Deeds that change nothing.
fn asking(word: &str) -> Option<Deed> {
    match word {
        "stat" => Some(Deed::Stat),
        "stat_many" => Some(Deed::StatMany),
        "absent" => Some(Deed::Absent),
        "absent_new" => Some(Deed::AbsentNew),
        "open_read" => Some(Deed::Read),
        "read_64k" => Some(Deed::ReadLong),
        "list" => Some(Deed::List),
        "list_10k" => Some(Deed::ListWide),
        _ => None,
    }
}

// Deeds that change something.
fn changing(word: &str) -> Option<Deed> {
    match word {
        "symlink" => Some(Deed::Symlink),
        "mkdir" => Some(Deed::Mkdir),
        "whiteout" => Some(Deed::Whiteout),
        "create" => Some(Deed::Create),
        "copy_64k" => Some(Deed::Copy(65_536)),
        "copy_1m" => Some(Deed::Copy(1_048_576)),
        "copy_64m" => Some(Deed::Copy(67_108_864)),
        "copy_64k_again" => Some(Deed::CopyAgain(65_536)),
        "copy_1m_again" => Some(Deed::CopyAgain(1_048_576)),
        "copy_64m_hole" => Some(Deed::CopyHole(67_108_864)),
        "touch_1m" => Some(Deed::Touch(1_048_576)),
        "touch_1m_again" => Some(Deed::TouchAgain(1_048_576)),
        "write_64k" => Some(Deed::WriteLong),
        "write_4k" => Some(Deed::WriteBlock),
        "link" => Some(Deed::Link),
        "rename" => Some(Deed::Rename),
        "setattr" => Some(Deed::SetAttribute),
        _ => None,
    }
}

// Changes of modes, and what is done with files whose mode was changed.
fn changed(word: &str) -> Option<Deed> {
    match word {
        "chmod_empty" => Some(Deed::Chmod {
            size: 0,
            metacopy: true,
        }),
        "chmod_1m" => Some(Deed::Chmod {
            size: 1_048_576,
            metacopy: true,
        }),
        "chmod_1m_copied" => Some(Deed::Chmod {
            size: 1_048_576,
            metacopy: false,
        }),
        "stat_marked" => Some(Deed::StatChanged { metacopy: true }),
        "stat_copied" => Some(Deed::StatChanged { metacopy: false }),
        "open_read_marked" => Some(Deed::ReadChanged { metacopy: true }),
        "open_read_copied" => Some(Deed::ReadChanged { metacopy: false }),
        _ => None,
    }
}
