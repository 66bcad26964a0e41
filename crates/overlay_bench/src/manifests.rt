// Manifests, written entry by entry.
use ov_wire::Blob;
use std::alloc::{AllocError, Global};

/// The text of a manifest, which grows, and how many zero bytes its blob has.
#[derive(Drop)]
pub struct ManifestText {
    text: String,
    zeros: usize,
}

impl ManifestText {
    /// No layer yet, of a mount whose files may have 64 MiB. Its blob is empty.
    pub fn new(alloc: Global) -> Result<ManifestText, AllocError> {
        let text = String::from_str(alloc, "blobs = [\"zeros\"]\nfile_limit = 67108864\n")?;
        Ok(ManifestText { text, zeros: 0 })
    }

    /// The same text, on a mount that copies files up without their bytes.
    pub fn with_metacopy(&self, alloc: Global) -> Result<ManifestText, AllocError> {
        let mut text = String::from_str(alloc, "redirect_dir = \"on\"\nmetacopy = \"on\"\n")?;
        text.push_str(self.text.as_str())?;
        let zeros = self.zeros;
        Ok(ManifestText { text, zeros })
    }

    /// The text so far.
    pub fn as_bytes(&self) -> &[u8] {
        self.text.as_bytes()
    }

    /// Its blob: as many zero bytes as its longest file takes of it.
    pub fn blob(&self, alloc: Global) -> Result<Blob, AllocError> {
        let mut bytes = Vec::new(alloc);
        bytes.resize(self.zeros, 0)?;
        Blob::from_vec(alloc, bytes)
    }

    /// Begins the next layer, the upper first.
    pub fn layer(&mut self) -> Result<(), AllocError> {
        self.text.push_str("[[layer]]\n")
    }

    /// An empty file.
    pub fn file(&mut self, path: &str) -> Result<(), AllocError> {
        self.entry("file", path)
    }

    /// A file of so many zero bytes.
    pub fn zeros(&mut self, path: &str, count: u32) -> Result<(), AllocError> {
        self.file(path)?;
        writeln!(self.text, "zeros = {count}")
    }

    /// A file of so many bytes of the blob.
    pub fn part(&mut self, path: &str, count: u32) -> Result<(), AllocError> {
        self.zeros = self.zeros.max(count as usize);
        self.file(path)?;
        writeln!(self.text, "blob = 0\nsize = {count}")
    }

    /// Another name of a file that stands earlier.
    pub fn link(&mut self, path: &str, to: &str) -> Result<(), AllocError> {
        self.entry("link", path)?;
        self.key("to", to)
    }

    /// A directory without marks.
    pub fn directory(&mut self, path: &str) -> Result<(), AllocError> {
        self.entry("dir", path)
    }

    fn entry(&mut self, kind: &str, path: &str) -> Result<(), AllocError> {
        self.text.push_str("[[layer.entry]]\n")?;
        self.key("kind", kind)?;
        self.key("path", path)
    }

    fn key(&mut self, key: &str, value: &str) -> Result<(), AllocError> {
        self.text.push_str(key)?;
        self.text.push_str(" = \"")?;
        self.text.push_str(value)?;
        self.text.push_str("\"\n")
    }
}

/// A path with one name of 12 bytes more: these first five bytes and a number.
pub fn child(alloc: Global, parent: &str, first: &str, number: u32) -> Result<String, AllocError> {
    format!(in alloc; "{parent}/{first}{number:07}")
}

/// The path of so many directories one below the other.
pub fn nested(alloc: Global, depth: u32) -> Result<String, AllocError> {
    let mut path = String::new(alloc);
    for number in 0..depth {
        path = child(alloc, path.as_str(), "dirs-", number)?;
    }
    Ok(path)
}
