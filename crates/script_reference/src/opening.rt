// The slow reference as layers begin with it.
use crate::contents::{attributes_of, content_of};
use crate::entries::Kind;
use crate::merged::{Shown, shown_below};
use crate::plain_layer::PlainLayer;
use ov_base::{Attributes, Path};
use plain_reference::{Builder, Content, MountOptions, Origin, Reference};
use std::alloc::{AllocError, Global};

/// The reference at the tree that layers show, of a mount that is told this. None where there is no layer, or the root of the upper has no
/// mode.
pub fn reference_of(
    alloc: Global,
    layers: &[PlainLayer<'_>],
    options: MountOptions,
) -> Result<Option<Reference>, AllocError> {
    let Some(upper) = layers.first() else {
        return Ok(None);
    };
    let Some(root) = attributes_of(alloc, &upper.root())? else {
        return Ok(None);
    };
    let mut builder = Builder::new(alloc, root, options)?;
    match put_shown(alloc, &mut builder, layers) {
        Ok(()) => Ok(Some(builder.finish())),
        Err(fault) => {
            drop(builder);
            Err(fault)
        }
    }
}

// Puts all that layers show below the root.
fn put_shown(
    alloc: Global,
    builder: &mut Builder,
    layers: &[PlainLayer<'_>],
) -> Result<(), AllocError> {
    let objects = shown_below(alloc, layers)?;
    for shown in objects.as_slice() {
        put(alloc, builder, objects.as_slice(), shown)?;
    }
    Ok(())
}

// Puts what is shown at a path, whose parent is there. The names of one file or symbolic link of the upper are names of one node.
fn put(
    alloc: Global,
    builder: &mut Builder,
    objects: &[Shown<'_>],
    shown: &Shown<'_>,
) -> Result<(), AllocError> {
    let Ok(path) = Path::parse(alloc, shown.path.as_slice())? else {
        return Ok(());
    };
    match put_before(objects, shown) {
        Some(other) => put_name(alloc, builder, &path, other),
        None => put_object(alloc, builder, &path, shown),
    }
}

// The path of the object among those that are shown that is put in place of this one: another name of it in the upper, which comes first.
fn put_before<'a>(objects: &'a [Shown<'_>], shown: &Shown<'_>) -> Option<&'a [u8]> {
    if !shown.is_upper {
        return None;
    }
    for other in objects {
        if other.is_upper && other.entry.first == shown.entry.first {
            return unless_same(other.path.as_slice(), shown.path.as_slice());
        }
    }
    None
}

fn unless_same<'a>(path: &'a [u8], other: &[u8]) -> Option<&'a [u8]> {
    if path == other { None } else { Some(path) }
}

fn put_name(
    alloc: Global,
    builder: &mut Builder,
    path: &Path,
    other: &[u8],
) -> Result<(), AllocError> {
    match Path::parse(alloc, other)? {
        Ok(other) => builder.name(path, &other),
        Err(_) => Ok(()),
    }
}

fn put_object(
    alloc: Global,
    builder: &mut Builder,
    path: &Path,
    shown: &Shown<'_>,
) -> Result<(), AllocError> {
    let Some(attributes) = attributes_of(alloc, &shown.entry)? else {
        return Ok(());
    };
    if shown.entry.kind == Kind::Directory {
        return builder.directory(path, attributes, shown.is_base);
    }
    match content_of(alloc, &shown.entry) {
        Ok(Some(content)) => put_leaf(builder, path, shown, content, attributes),
        Ok(None) => {
            drop(attributes);
            Ok(())
        }
        Err(fault) => {
            drop(attributes);
            Err(fault)
        }
    }
}

fn put_leaf(
    builder: &mut Builder,
    path: &Path,
    shown: &Shown<'_>,
    content: Content,
    attributes: Attributes,
) -> Result<(), AllocError> {
    let links = u64::from(shown.entry.links);
    if shown.is_upper {
        builder.leaf(path, content, attributes, Origin::Own(false), links)
    } else {
        builder.leaf(path, content, attributes, Origin::Untouched(links), 1)
    }
}
