// A mount on which calls go step by step, for a generator that has to know which of them go on.
use ov_script::{CallText, Command, command_of};
use overlay_core::{Core, Job, Standing, Turn};
use std::alloc::{AllocError, Global};
use std::collections::BTreeMap;
use watch_table::{Callback, Hook, Rule, copies_of};

/// The most deeds that are done on it.
const DEEDS_MOST: u64 = 1_000_000;

/// A mount, and the calls of its clients that go on, at most one of each client. `end` gives them
/// up.
pub struct Stepper<F: Callback, R: Rule> {
    core: Core<F, R>,
    jobs: BTreeMap<u64, Job>,
}

impl<F: Callback + Copy, R: Rule> Stepper<F, R> {
    /// A mount on which no call goes on.
    pub fn new(alloc: Global, core: Core<F, R>) -> Stepper<F, R> {
        Stepper {
            core,
            jobs: BTreeMap::new(alloc),
        }
    }

    /// Whether a call of this client goes on.
    pub fn is_calling(&self, client: u32) -> bool {
        self.jobs.contains_key(&u64::from(client))
    }

    /// Does what lines of a script ask for. Each client comes with copies of these hooks.
    pub fn play(
        &mut self,
        alloc: Global,
        hooks: &[Hook<F, R>],
        lines: &[u8],
    ) -> Result<(), AllocError> {
        for line in lines.split(|byte| *byte == b'\n') {
            if let Ok(command) = command_of(line) {
                self.play_command(alloc, hooks, command)?;
            }
        }
        Ok(())
    }

    // What only shows something does nothing.
    fn play_command(
        &mut self,
        alloc: Global,
        hooks: &[Hook<F, R>],
        command: Command<'_>,
    ) -> Result<(), AllocError> {
        match command {
            Command::Attach => return self.attach(alloc, hooks),
            Command::Start { client, call } => return self.start(alloc, client, call),
            Command::Call { client, call } => {
                self.start(alloc, client, call)?;
                self.step(client, u64::MAX);
            }
            Command::Detach { client } => self.detach(client),
            Command::Step { client, steps } => self.step(client, steps),
            Command::Drop { client } => self.drop_call(client),
            Command::Layer { .. } | Command::Merge | Command::Work => {}
        }
        Ok(())
    }

    fn attach(&mut self, alloc: Global, hooks: &[Hook<F, R>]) -> Result<(), AllocError> {
        if self.core.finished() >= DEEDS_MOST {
            return Ok(());
        }
        let copies = copies_of(alloc, hooks)?;
        drop(self.core.attach(copies));
        Ok(())
    }

    fn detach(&mut self, client: u32) {
        self.drop_call(client);
        let client = u64::from(client);
        if self.core.finished() >= DEEDS_MOST || !self.core.is_attached(client) {
            return;
        }
        drop(self.core.detach(client));
    }

    fn start(&mut self, alloc: Global, client: u32, text: CallText<'_>) -> Result<(), AllocError> {
        let Ok(call) = text.read(alloc)? else {
            return Ok(());
        };
        let client = u64::from(client);
        match self.jobs.insert(client, Job::new(client, call)) {
            Ok(None) => Ok(()),
            Ok(Some(job)) => {
                drop(self.core.drop_job(job));
                Ok(())
            }
            Err(fault) => {
                let (_client, job) = fault.value;
                drop(self.core.drop_job(job));
                Err(AllocError)
            }
        }
    }

    fn step(&mut self, client: u32, steps: u64) {
        let is_over = match self.jobs.get_mut(&u64::from(client)) {
            Some(job) => ends(&mut self.core, job, steps),
            None => false,
        };
        if is_over {
            self.drop_call(client);
        }
    }

    fn drop_call(&mut self, client: u32) {
        if let Some(job) = self.jobs.remove(&u64::from(client)) {
            drop(self.core.drop_job(job));
        }
    }

    /// Gives up the calls that go on.
    pub fn end(self) {
        let Stepper { mut core, mut jobs } = self;
        'jobs: while let Some((_client, job)) = jobs.pop_first() {
            drop(core.drop_job(job));
        }
        jobs.destroy_empty();
        drop(core);
    }
}

// Makes so many steps of a job, and tells whether it ends.
fn ends<F: Callback, R: Rule>(core: &mut Core<F, R>, job: &mut Job, steps: u64) -> bool {
    for _ in 0..steps {
        if !goes_on(core, job) {
            return true;
        }
    }
    false
}

// Makes a step of a job, and tells whether there are more.
fn goes_on<F: Callback, R: Rule>(core: &mut Core<F, R>, job: &mut Job) -> bool {
    if core.finished() >= DEEDS_MOST || !core.is_attached(job.client()) {
        return false;
    }
    match job.standing() {
        Standing::Open => {
            let turn = core.advance(job);
            let has_more = matches!(&turn, Turn::More);
            drop(turn);
            has_more
        }
        Standing::Answered | Standing::GivenUp => false,
    }
}
