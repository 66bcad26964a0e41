// The upper layer of a mount as a manifest of one layer.
ghost use Rattle.ov_server.specs.Devices.{Marks};

use crate::devices::Output;
use crate::fault::DeviceFault;
use crate::saved_bytes::put_bytes;
use crate::saved_entries::{
    Unsaid, are_of_a_root, put_directory, put_inode, put_link, put_whiteout,
};
use layer_tree::{Directory, Entry, Inode, Layer, Node, ROOT};
use merged_lookup::Layers;
use ov_base::{Content, Name, Place};
use ov_devices::Sink;
use std::alloc::{AllocError, Global};
use std::collections::BTreeMap;

/// The objects of a layer that no manifest can say: how many they are, those in them not counted, and
/// the path of the first.
#[derive(Drop)]
pub struct LeftOut {
    pub objects: u64,
    pub first: Option<Vec<u8>>,
}

// A directory on the way: its names that are left, the next one last, and how long its path is.
#[derive(Drop)]
struct Level {
    key: usize,
    left: Vec<Name>,
    length: usize,
}

// What of a layer is written: the path that is come to, the directories on the way, and the first path
// of each object that has several.
#[derive(Drop)]
struct Saving<'a> {
    alloc: Global,
    layers: &'a Layers,
    upper: &'a Layer,
    path: Vec<u8>,
    levels: Vec<Level>,
    named: BTreeMap<usize, Vec<u8>>,
    entry: String,
    left_out: LeftOut,
}

/// Puts out the upper of a mount as a manifest of one layer: each directory before what is in it, names
/// in the order of their bytes. A file whose bytes the layers below have is written with these. What no
/// manifest can say is left out, with what is in it.
pub fn save_upper<K: Sink>(
    alloc: Global,
    layers: &Layers,
    output: &mut Output<K>,
) -> Result<LeftOut, DeviceFault>
    ensures { Marks (K.failures output.old.sink) (K.failures output.new.sink) result }
{
    let Some(upper) = layers.layer(0) else {
        return Ok(LeftOut {
            objects: 0,
            first: None,
        });
    };
    let mut saving = Saving::new(alloc, layers, upper);
    saving.save(output)?;
    output.flush()?;
    Ok(saving.left_out)
}

impl<'a> Saving<'a> {
    fn new(alloc: Global, layers: &'a Layers, upper: &'a Layer) -> Saving<'a> {
        Saving {
            alloc,
            layers,
            upper,
            path: Vec::new(alloc),
            levels: Vec::new(alloc),
            named: BTreeMap::new(alloc),
            entry: String::new(alloc),
            left_out: LeftOut {
                objects: 0,
                first: None,
            },
        }
    }

    fn save<K: Sink>(&mut self, output: &mut Output<K>) -> Result<(), DeviceFault>
        ensures { Marks (K.failures output.old.sink) (K.failures output.new.sink) result }
    {
        output.text.push_str("[[layer]]\n")?;
        self.root(&mut output.text)?;
        for _ in 0..u64::MAX {
            if !self.go_on(output)? {
                return Ok(());
            }
            output.relieve()?;
        }
        // No memory holds a layer of so many objects.
        Err(DeviceFault::Memory)
    }

    // Adds the root, where it isn't as roots are, and enters it.
    fn root(&mut self, text: &mut String) -> Result<(), AllocError> {
        match self.upper.node(ROOT) {
            Some(Node::Directory(root)) if !are_of_a_root(&root.attributes) => {
                let said = put_directory(self.alloc, b"/", root, &mut self.entry);
                self.add(said, text)?;
            }
            _ => (),
        }
        self.enter(ROOT)
    }

    // Goes on to the next name and adds what stands there, or goes back out of a directory; false where
    // all was added.
    fn go_on<K: Sink>(&mut self, output: &mut Output<K>) -> Result<bool, DeviceFault>
        ensures { Marks (K.failures output.old.sink) (K.failures output.new.sink) result }
    {
        let Some(mut level) = self.levels.pop() else {
            return Ok(false);
        };
        let Some(name) = level.left.pop() else {
            return Ok(true);
        };
        self.path.truncate(level.length);
        self.path.push(b'/')?;
        self.path.extend_from_slice(name.as_slice())?;
        let found = self.upper.entry(level.key, &name);
        self.levels.push(level)?;
        match found {
            Some(Entry::Object(key)) => self.object(key, output)?,
            Some(Entry::Whiteout) => self.whiteout(&mut output.text)?,
            None => (),
        }
        Ok(true)
    }

    // Adds an object, under the path that is come to.
    fn object<K: Sink>(&mut self, key: usize, output: &mut Output<K>) -> Result<(), DeviceFault>
        ensures { Marks (K.failures output.old.sink) (K.failures output.new.sink) result }
    {
        match self.upper.node(key) {
            Some(Node::Directory(directory)) => {
                self.directory(key, directory, &mut output.text)?;
                Ok(())
            }
            Some(Node::Inode(inode)) => self.inode(key, inode, output),
            None => Ok(()),
        }
    }

    // Adds a directory, and enters it.
    fn directory(
        &mut self,
        key: usize,
        directory: &Directory,
        text: &mut String,
    ) -> Result<(), AllocError> {
        let path = self.path.as_slice();
        let said = put_directory(self.alloc, path, directory, &mut self.entry);
        if self.add(said, text)? {
            self.enter(key)?;
        }
        Ok(())
    }

    fn whiteout(&mut self, text: &mut String) -> Result<(), AllocError> {
        let said = put_whiteout(self.path.as_slice(), &mut self.entry);
        self.add(said, text)?;
        Ok(())
    }

    // Adds a file or a symbolic link, or a further name of it.
    fn inode<K: Sink>(
        &mut self,
        key: usize,
        inode: &Inode,
        output: &mut Output<K>,
    ) -> Result<(), DeviceFault>
        ensures { Marks (K.failures output.old.sink) (K.failures output.new.sink) result }
    {
        let path = self.path.as_slice();
        if let Some(first) = self.named.get(&key) {
            let said = put_link(path, first.as_slice(), &mut self.entry);
            self.add(said, &mut output.text)?;
            return Ok(());
        }
        let said = put_inode(self.alloc, path, inode, &mut self.entry);
        if !self.add(said, &mut output.text)? {
            return Ok(());
        }
        if inode.links > 1 {
            let path = Vec::from_slice(self.alloc, self.path.as_slice())?;
            self.named.insert(key, path)?;
        }
        match self.layers.content_at(Place { layer: 0, key }) {
            Some(Content::File(bytes)) => put_bytes(self.alloc, bytes, output),
            _ => Ok(()),
        }
    }

    // Adds the entry where it could be said; or what stands there is left out. Whether it was said.
    fn add(&mut self, said: Result<(), Unsaid>, text: &mut String) -> Result<bool, AllocError> {
        let is_said = match said {
            Ok(()) => {
                text.push_str(self.entry.as_str())?;
                true
            }
            Err(Unsaid::NoText) => {
                self.leave_out()?;
                false
            }
            Err(Unsaid::Memory) => return Err(AllocError),
        };
        self.entry.clear();
        Ok(is_said)
    }

    fn leave_out(&mut self) -> Result<(), AllocError> {
        let LeftOut { objects, first } = &mut self.left_out;
        *objects = objects.saturating_add(1);
        if first.is_none() {
            *first = Some(Vec::from_slice(self.alloc, self.path.as_slice())?);
        }
        Ok(())
    }

    // Enters a directory, at the path that is come to.
    fn enter(&mut self, key: usize) -> Result<(), AllocError> {
        let mut left = self.upper.names(self.alloc, key)?;
        left.reverse();
        let level = Level {
            key,
            left,
            length: self.path.len(),
        };
        self.levels.push(level)?;
        Ok(())
    }
}
