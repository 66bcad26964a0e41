// What the paths of a call show, looked at once for all that it asks.
ghost use Rattle.std.specs.Prelude.{◌≡◌, ◌∷◌, [], true, None};
ghost use Rattle.plain_model.specs.Layers.{Path as Names};
ghost use Rattle.layer_tree.specs.Tree.{layer_of};
ghost use Rattle.merged_lookup.specs.declared.layers.Layers.{Layers as Held};
ghost use Rattle.mount_calls.specs.Lacks.{lacking};
ghost use Rattle.mount_calls.specs.Looking as looking;
ghost use Rattle.mount_calls.specs.Looking.{paths_of, IsLook, SawEach};

use crate::look::Look;
use merged_lookup::Layers;
use ov_base::{Call, Path};

/// The paths of a call that are looked at once for all that it asks: the one of a change of
/// attributes, of an open, or of what is made or removed, or both of a link or a rename. Other calls
/// look for themselves.
#[derive(Clone, Copy)]
pub enum LookedPaths<'a> {
    None,
    One(&'a Path),
    Both(&'a Path, &'a Path),
}

/// What these paths of a call show.
#[derive(Clone, Copy)]
pub enum Looks<'a> {
    One(&'a Look),
    Both(&'a Look, &'a Look),
}

impl<'a> Looks<'a> {
    /// The look of a call that has one.
    pub fn one(self) -> &'a Look
        requires { (l : Held) × (p : Names) × SawEach l (p ∷ []) self }
        ensures { (l : Held) (p : Names) → SawEach l (p ∷ []) self.entry → IsLook l p result.now }
    {
        match self {
            Looks::One(look) => look,
            Looks::Both(_, _) => unreachable!(),
        }
    }

    /// The looks of a call that has two.
    pub fn both(self) -> (&'a Look, &'a Look)
        requires { (l : Held) × (p : Names) × (q : Names) × SawEach l (p ∷ (q ∷ [])) self }
        ensures { (l : Held) (p q : Names) → SawEach l (p ∷ (q ∷ [])) self.entry →
            IsLook l p result.0.now × IsLook l q result.1.now }
    {
        match self {
            Looks::Both(from, onto) => (from, onto),
            Looks::One(_) => unreachable!(),
        }
    }
}

/// The paths of a call that are looked at once, before it is planned.
pub fn looked_paths(call: &Call) -> LookedPaths<'_>
    ensures { paths_of result ≡ looking.looked_paths call.now }
{
    match call {
        Call::Chmod { path, .. }
        | Call::Chown { path, .. }
        | Call::SetAttribute { path, .. }
        | Call::DeleteAttribute { path, .. }
        | Call::Mkdir { path, .. }
        | Call::Symlink { path, .. }
        | Call::Open { path, .. }
        | Call::Unlink { path }
        | Call::Rmdir { path } => LookedPaths::One(path),
        Call::Hardlink { old, new } | Call::Rename { old, new } => LookedPaths::Both(old, new),
        _ => LookedPaths::None,
    }
}

impl Look {
    // Whether it saw a directory of the upper on the way to the last name: then the upper has each
    // parent of the path.
    pub(crate) fn saw_parents(&self, layers: &Layers) -> bool
        ensures { result ≡ true → (p : Names) → IsLook layers.now p self.now →
            lacking (layer_of layers.now.upper) p ≡ None }
    {
        layers.lawful();
        match &self.shown {
            Ok((directory, _)) => directory.top().layer == 0,
            Err(_) => false,
        }
    }
}
