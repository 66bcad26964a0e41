// A call that may lack something in the upper: what it changes, judged once by what its looks saw,
// before any step of it is made.
ghost use Rattle.std.specs.Prelude.{◌≡◌, ◌∷◌, [], ℕ, true, false, is_none, IsSome};
ghost use Rattle.std.specs.BTreeMap.{get};
ghost use Rattle.std.specs.Ordering.{nat_cmp};
ghost use Rattle.ov_base.specs.declared.call.CallOf.TheVariants as Call;
ghost use Rattle.plain_model.specs.Machine.{State};
ghost use Rattle.plain_model.specs.Refusals as machine;
ghost use Rattle.merged_lookup.specs.Merged.{upper_of, lowers_of};
ghost use Rattle.mount_calls.specs.AttributeCalls.{call_at};
ghost use Rattle.mount_calls.specs.Lacks.{changed_paths, may_lack};
ghost use Rattle.mount_calls.specs.Looking.{AreLooks, SawEach};
ghost use Rattle.mount_calls.specs.Plans.{call_of, IsPlanned, PlansCall};
ghost use Rattle.mount_calls.specs.States.{IsStateOf};
ghost use Rattle.mount_calls.specs.declared.mount.Mount.{Mount as Held};

use crate::attribute_changes::AttributeCall;
use crate::look::Look;
use crate::looks::Looks;
use crate::mount::Mount;
use crate::open_calls::Judged;
use merged_lookup::{Stack, Topmost};
use ov_base::{Bytes, Call, Errno, Mode, OpenFlags, Path, Place};
use rename_redirect::JudgedRename;

/// A call that nothing refuses, with what was seen at its paths and what its judge found there.
#[derive(Clone, Copy)]
pub enum Plan<'a> {
    /// Attributes of what a path shows are changed.
    Alter {
        path: &'a Path,
        look: &'a Look,
        found: (&'a Stack, Topmost),
        ask: AttributeCall<'a>,
    },
    Mkdir {
        path: &'a Path,
        look: &'a Look,
        directory: &'a Stack,
        mode: Mode,
    },
    Symlink {
        path: &'a Path,
        look: &'a Look,
        directory: &'a Stack,
        target: &'a Bytes,
    },
    Open {
        path: &'a Path,
        look: &'a Look,
        flags: OpenFlags,
        judged: Judged,
    },
    Unlink {
        path: &'a Path,
        look: &'a Look,
        directory: &'a Stack,
        place: Place,
    },
    Rmdir {
        path: &'a Path,
        look: &'a Look,
        directory: &'a Stack,
    },
    Link {
        old: &'a Path,
        new: &'a Path,
        from: &'a Look,
        onto: &'a Look,
        found: (&'a Stack, &'a Stack, Place),
    },
    Rename {
        old: &'a Path,
        new: &'a Path,
        from: &'a Look,
        onto: &'a Look,
        moving: JudgedRename<'a>,
    },
    /// A rename whose paths are one object, which moves nothing.
    Nothing {
        old: &'a Path,
        new: &'a Path,
    },
}

impl<'a> Plan<'a> {
    /// Whether it writes to the mount, which none may where there is no upper (open(2), rename(2):
    /// EROFS): opening for reading does where it makes the file, and a rename where it moves
    /// something.
    pub fn writes(&self) -> bool
        ensures writes { (m : Held) (c : ℕ) → IsPlanned m c self.now → (s : State) →
            IsStateOf m s → result ≡ machine.writes s (call_of self.now) }
        ensures none { result ≡ false → (m : Held) (c : ℕ) → IsPlanned m c self.now →
            changed_paths (upper_of m.layers) (lowers_of m.layers) (call_of self.now) ≡ [] }
    {
        match self {
            Plan::Open { flags, judged, .. } => flags.writes || judged.top.is_none(),
            Plan::Nothing { .. } => false,
            _ => true,
        }
    }
}

impl Mount {
    /// Plans a call of a client by what was seen at its paths, or tells why it is refused. Nothing
    /// changes, and it takes no memory.
    #[inline(always)]
    pub fn plan<'a>(&self, client: u64, call: &'a Call, looks: Looks<'a>) -> Result<Plan<'a>, Errno>
        requires attached { IsSome (get nat_cmp self.now.clients.attached client) }
        requires may { may_lack call.now ≡ true }
        requires looks { AreLooks self.now.layers call.now looks }
        ensures { PlansCall self.now client call.now result }
    {
        match call {
            Call::Chmod { path, mode } => self.plan_alter(path, looks, AttributeCall::Mode(*mode)),
            Call::Chown { path, uid, gid } => {
                self.plan_alter(path, looks, AttributeCall::Owner(*uid, *gid))
            }
            Call::SetAttribute { path, name, value } => {
                self.plan_alter(path, looks, AttributeCall::Set(name, value))
            }
            Call::DeleteAttribute { path, name } => {
                self.plan_alter(path, looks, AttributeCall::Delete(name))
            }
            Call::Mkdir { path, mode } => self.plan_mkdir(path, looks, *mode),
            Call::Symlink { target, path } => self.plan_symlink(target, path, looks),
            Call::Open { path, flags, mode } => self.plan_open(client, path, looks, *flags, *mode),
            Call::Unlink { path } => self.plan_unlink(path, looks),
            Call::Rmdir { path } => self.plan_rmdir(path, looks),
            Call::Hardlink { old, new } => self.plan_link(old, new, looks),
            Call::Rename { old, new } => self.plan_rename(old, new, looks),
            _ => unreachable!(),
        }
    }

    // `plan`, of a change of attributes.
    #[inline(always)]
    fn plan_alter<'a>(
        &self,
        path: &'a Path,
        looks: Looks<'a>,
        ask: AttributeCall<'a>,
    ) -> Result<Plan<'a>, Errno>
        requires { SawEach self.now.layers (path.now ∷ []) looks }
        ensures { (c : ℕ) → PlansCall self.now c (call_at path.now ask.entry) result }
    {
        let look = looks.one();
        match self.judge_alter(look, &ask) {
            Ok(found) => Ok(Plan::Alter {
                path,
                look,
                found,
                ask,
            }),
            Err(errno) => Err(errno),
        }
    }

    // `plan`, of a mkdir.
    #[inline(always)]
    fn plan_mkdir<'a>(&self, path: &'a Path, looks: Looks<'a>, mode: u32) -> Result<Plan<'a>, Errno>
        requires { SawEach self.now.layers (path.now ∷ []) looks }
        ensures { (c : ℕ) → PlansCall self.now c (Call.Mkdir path.now mode) result }
    {
        let look = looks.one();
        match self.judge_mkdir(path, look, mode) {
            Ok((directory, mode)) => Ok(Plan::Mkdir {
                path,
                look,
                directory,
                mode,
            }),
            Err(errno) => Err(errno),
        }
    }

    // `plan`, of a symlink.
    #[inline(always)]
    fn plan_symlink<'a>(
        &self,
        target: &'a Bytes,
        path: &'a Path,
        looks: Looks<'a>,
    ) -> Result<Plan<'a>, Errno>
        requires { SawEach self.now.layers (path.now ∷ []) looks }
        ensures { (c : ℕ) → PlansCall self.now c (Call.Symlink target.now path.now) result }
    {
        let look = looks.one();
        match self.judge_symlink(target, path, look) {
            Ok(directory) => Ok(Plan::Symlink {
                path,
                look,
                directory,
                target,
            }),
            Err(errno) => Err(errno),
        }
    }

    // `plan`, of an open.
    #[inline(always)]
    fn plan_open<'a>(
        &self,
        client: u64,
        path: &'a Path,
        looks: Looks<'a>,
        flags: OpenFlags,
        mode: u32,
    ) -> Result<Plan<'a>, Errno>
        requires attached { IsSome (get nat_cmp self.now.clients.attached client) }
        requires looks { SawEach self.now.layers (path.now ∷ []) looks }
        ensures { PlansCall self.now client (Call.Open path.now flags mode) result }
    {
        let look = looks.one();
        match self.judge_open(client, look, flags, mode) {
            Ok(judged) => Ok(Plan::Open {
                path,
                look,
                flags,
                judged,
            }),
            Err(errno) => Err(errno),
        }
    }

    // `plan`, of an unlink.
    #[inline(always)]
    fn plan_unlink<'a>(&self, path: &'a Path, looks: Looks<'a>) -> Result<Plan<'a>, Errno>
        requires { SawEach self.now.layers (path.now ∷ []) looks }
        ensures { (c : ℕ) → PlansCall self.now c (Call.Unlink path.now) result }
    {
        let look = looks.one();
        match self.judge_unlink(path, look) {
            Ok((directory, place)) => Ok(Plan::Unlink {
                path,
                look,
                directory,
                place,
            }),
            Err(errno) => Err(errno),
        }
    }

    // `plan`, of a rmdir.
    #[inline(always)]
    fn plan_rmdir<'a>(&self, path: &'a Path, looks: Looks<'a>) -> Result<Plan<'a>, Errno>
        requires { SawEach self.now.layers (path.now ∷ []) looks }
        ensures { (c : ℕ) → PlansCall self.now c (Call.Rmdir path.now) result }
    {
        let look = looks.one();
        match self.judge_rmdir(path, look) {
            Ok(directory) => Ok(Plan::Rmdir {
                path,
                look,
                directory,
            }),
            Err(errno) => Err(errno),
        }
    }

    // `plan`, of a link.
    #[inline(always)]
    fn plan_link<'a>(
        &self,
        old: &'a Path,
        new: &'a Path,
        looks: Looks<'a>,
    ) -> Result<Plan<'a>, Errno>
        requires { SawEach self.now.layers (old.now ∷ (new.now ∷ [])) looks }
        ensures { (c : ℕ) → PlansCall self.now c (Call.Hardlink old.now new.now) result }
    {
        let (from, onto) = looks.both();
        match self.judge_link(from, onto) {
            Ok(found) => Ok(Plan::Link {
                old,
                new,
                from,
                onto,
                found,
            }),
            Err(errno) => Err(errno),
        }
    }

    // `plan`, of a rename.
    #[inline(always)]
    fn plan_rename<'a>(
        &self,
        old: &'a Path,
        new: &'a Path,
        looks: Looks<'a>,
    ) -> Result<Plan<'a>, Errno>
        requires { SawEach self.now.layers (old.now ∷ (new.now ∷ [])) looks }
        ensures { (c : ℕ) → PlansCall self.now c (Call.Rename old.now new.now) result }
    {
        let (from, onto) = looks.both();
        match self.judge_rename(old, new, from, onto) {
            Ok(Some(moving)) => Ok(Plan::Rename {
                old,
                new,
                from,
                onto,
                moving,
            }),
            Ok(None) => Ok(Plan::Nothing { old, new }),
            Err(errno) => Err(errno),
        }
    }
}
