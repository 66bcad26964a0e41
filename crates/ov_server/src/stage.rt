// The stage on which a script is played: a mount, and the calls that are on their way.
ghost use Rattle.std.specs.Prelude.{◌≡◌, ℕ, true, None, OnErr, OnOk};
ghost use Rattle.overlay_core.specs.Views.{CoreSame, core_work};
ghost use Rattle.ov_server.specs.Deeds.{StepsCall};
ghost use Rattle.ov_server.specs.Stages.{IsInOrder, KeepsCalls, KeepsOtherCalls, OpensCall, is_calling, may_call, open_call};

use crate::stepping::steps_of_job;
use ov_base::Call;
use overlay_core::{Core, Job, Turn};
use std::alloc::{AllocError, Global};
use std::collections::BTreeMap;
use watch_table::{Callback, Rule};

/// A mount, and the calls of its clients that are on their way, at most one of each client. The
/// calls don't go by themselves: `end` gives them up.
pub struct Stage<F: Callback, H: Rule> {
    pub(crate) core: Core<F, H>,
    calls: BTreeMap<u64, Job>,
}

impl<F: Callback, H: Rule> Stage<F, H> {
    /// A mount on which no call is on its way.
    pub(crate) fn new(alloc: Global, core: Core<F, H>) -> Stage<F, H>
        ensures core { result.core ≡ core }
        ensures none { (n : ℕ) → open_call result n ≡ None }
    {
        Stage {
            core,
            calls: BTreeMap::new(alloc),
        }
    }

    /// Whether a call of this client is on its way.
    pub(crate) fn is_calling(&self, client: u64) -> bool
        ensures { result ≡ is_calling self.now client }
    {
        self.calls.contains_key(&client)
    }

    /// Whether this client is attached and has no call on its way.
    pub(crate) fn may_call(&self, client: u64) -> bool
        ensures { result ≡ may_call self.now client }
    {
        self.core.is_attached(client) && !self.is_calling(client)
    }

    /// Puts a call of a client on its way, which makes no step of it. Where memory runs out none is.
    pub(crate) fn start(&mut self, client: u64, call: Call) -> Result<(), AllocError>
        requires { open_call self.old client ≡ None }
        ensures core { CoreSame self.old.core self.new.core }
        ensures work { core_work self.new.core ≡ core_work self.old.core }
        ensures started { OnOk result (OpensCall self.new client call) }
        ensures others { KeepsOtherCalls self.old self.new client }
        ensures err { OnErr result (KeepsCalls self.old self.new) }
    {
        match self.calls.insert(client, Job::new(client, call)) {
            Ok(None) => Ok(()),
            Ok(Some(_before)) => unreachable!(),
            Err(fault) => {
                let (_client, job) = fault.value;
                drop(self.core.drop_job(job));
                Err(AllocError)
            }
        }
    }

    /// Makes so many steps of the call of a client that is on its way, fewer where it ends.
    pub(crate) fn step(&mut self, client: u64, steps: u64) -> Turn
        requires order { IsInOrder self.old }
        requires calling { is_calling self.old client ≡ true }
        ensures steps { StepsCall self.old client steps self.new result }
        ensures others { KeepsOtherCalls self.old self.new client }
    {
        let job = self.calls.get_mut(&client).unwrap();
        steps_of_job(&mut self.core, job, steps)
    }

    /// Takes the call of a client off, if one is on its way, and gives up what is kept of it.
    pub(crate) fn drop_call(&mut self, client: u64)
        ensures core { CoreSame self.old.core self.new.core }
        ensures gone { open_call self.new client ≡ None }
        ensures others { KeepsOtherCalls self.old self.new client }
    {
        if let Some(job) = self.calls.remove(&client) {
            drop(self.core.drop_job(job));
        }
    }

    /// Gives up the calls that are on their way, and gives the mount back.
    pub(crate) fn end(self) -> Core<F, H>
        ensures { CoreSame self.core result }
    {
        let Stage {
            mut core,
            mut calls,
        } = self;
        'calls: while let Some((_client, job)) = calls.pop_first() {
            drop(core.drop_job(job));
        }
        calls.destroy_empty();
        core
    }
}
