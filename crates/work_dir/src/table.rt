// The open jobs by their numbers, and with them the temps.
ghost use Rattle.std.specs.Prelude.{◌≡◌, ◌↔◌, ℕ, [], ◌∷◌, ◌++◌, map, position, slice_set, count_by, Some, None, is_some, is_none, length, option_map, ◌<◌, IsSomeAnd, IsTrue, IfOk, IsOk, OnOk, OnErr, option_copied};
ghost use Rattle.std.specs.Option.{ForSome};
ghost use Rattle.work_dir.specs.Beginnings.{longer_beginning, IsBeginning};
ghost use Rattle.work_dir.specs.OpenJobs.{job_at, temp_at, has_temp, is_of, of_client, unless_of, held, temp_of, closed, closed_any, with_chunk, IsFree, IsFull, LacksBytes, Same, Changes};

use crate::temp::Temp;
use std::alloc::{AllocError, Global};
use std::marker::Model;

/// What is kept of an open job: its client, and its temp if it has one.
#[derive(Drop)]
pub struct OpenJob {
    pub client: u64,
    pub temp: Option<Temp>,
}

/// The open jobs by their numbers. A temp is kept in an open job alone.
#[derive(Drop)]
pub struct WorkDir {
    jobs: Vec<Option<OpenJob>>,
}

impl Model for WorkDir {
    ghost use Rattle.std.specs.Prelude.{List, Option};
    ghost use Rattle.work_dir.specs.declared.table.OpenJob.{OpenJob};

    ghost Value = { List (Option OpenJob) };

    ghost view = { λ w. w.jobs.items };
}

impl WorkDir {
    /// No open jobs. It allocates nothing.
    pub fn new(alloc: Global) -> WorkDir
        ensures { result ≡ [] }
    {
        WorkDir {
            jobs: Vec::new(alloc),
        }
    }

    /// How many temps there are.
    pub fn count(&self) -> usize
        ensures count { result ≡ count_by has_temp self.now }
        ensures none { count_by is_some self.now ≡ 0 → result ≡ 0 }
    {
        self.jobs.iter().filter(|job| has_temp(job)).count()
    }

    /// How many jobs of a client are open.
    pub fn open_jobs(&self, client: u64) -> usize
        ensures { result ≡ count_by (is_of client) self.now }
    {
        self.jobs.iter().filter(|job| is_of(job, client)).count()
    }

    /// The open job under a number.
    pub fn job_at(&self, number: usize) -> Option<&OpenJob>
        ensures { option_copied result ≡ job_at self.now number }
    {
        self.jobs.get(number)?.as_ref()
    }

    /// The temp under a number.
    pub fn temp_at(&self, number: usize) -> Option<&Temp>
        ensures { option_copied result ≡ temp_at self.now number }
    {
        self.job_at(number)?.temp.as_ref()
    }

    /// A number that is free: the one that is named, where it is. The table grows where none is
    /// free, and an allocation failure leaves it as it was.
    pub fn room(&mut self, hint: Option<usize>) -> Result<usize, AllocError>
        ensures hint { ForSome hint (λ n. IsFree self.old n → result ≡ Ok n) }
        ensures free { IfOk result (IsFree self.new) }
        ensures kept { (n : ℕ) → IsFree self.old n → IsOk result × (self.new ≡ self.old) }
        ensures grown { IsFull self.old → OnOk result (self.new ≡ self.old ++ None ∷ []) }
        ensures same { Same self.old self.new }
        ensures err { OnErr result (self.new ≡ self.old) }
    {
        if let Some(number) = hint
            && self.is_free(number)
        {
            return Ok(number);
        }
        if let Some(number) = self.first_free() {
            return Ok(number);
        }
        let number = self.jobs.len();
        if self.jobs.push(None).is_err() {
            return Err(AllocError);
        }
        Ok(number)
    }

    // Whether a number is in the table and free.
    fn is_free(&self, number: usize) -> bool
        ensures { IsTrue result ↔ IsFree self.now number }
    {
        match self.jobs.get(number) {
            Some(job) => job.is_none(),
            None => false,
        }
    }

    // The first number that is free.
    fn first_free(&self) -> Option<usize>
        ensures { result ≡ position is_none self.now }
    {
        self.jobs.iter().position(|job| job.is_none())
    }

    /// Keeps a job under a number that is free.
    pub fn put(&mut self, number: usize, job: OpenJob)
        requires { IsFree self.old number }
        ensures table { self.new ≡ slice_set self.old number (Some job) }
        ensures numbers { Changes self.old self.new number (Some job) }
    {
        self.jobs[number] = Some(job);
    }

    /// Takes the job under a number out, where it is the client's.
    pub fn take_out(&mut self, number: usize, client: u64) -> Option<OpenJob>
        ensures job { result ≡ of_client client (job_at self.old number) }
        ensures table { self.new ≡ closed self.old number client }
        ensures numbers { Changes self.old self.new number (unless_of client (job_at self.old number)) }
    {
        if !self.is_own(number, client) {
            return None;
        }
        self.jobs[number].take()
    }

    // Whether the job under a number is the client's.
    fn is_own(&self, number: usize, client: u64) -> bool
        ensures { result ≡ is_of client (job_at self.now number) }
    {
        match self.jobs.get(number) {
            Some(job) => is_of(job, client),
            None => false,
        }
    }

    /// Ends what is kept of a client's job, if it has a number, and gives its temp if that has so
    /// many chunks.
    pub fn close(&mut self, number: Option<usize>, client: u64, chunks: usize) -> Option<Temp>
        ensures temp { result ≡ held self.old number client chunks }
        ensures table { self.new ≡ closed_any self.old number client }
        ensures numbers { ForSome number (λ n. Changes self.old self.new n (unless_of client (job_at self.old n))) }
    {
        let temp = self.take_out(number?, client)?.temp?;
        if temp.chunks() == chunks {
            Some(temp)
        } else {
            None
        }
    }

    /// Ends what is kept of a client's job, if it has a number.
    pub fn end(&mut self, number: Option<usize>, client: u64)
        ensures table { self.new ≡ closed_any self.old number client }
        ensures numbers { ForSome number (λ n.
            Changes self.old self.new n (unless_of client (job_at self.old n))) }
    {
        if let Some(number) = number {
            let _ = self.take_out(number, client);
        }
    }

    /// The temp that `close` would give, where it is kept.
    pub fn held(&self, number: Option<usize>, client: u64, chunks: usize) -> Option<&Temp>
        ensures { option_copied result ≡ held self.now number client chunks }
    {
        let number = number?;
        if !self.is_own(number, client) {
            return None;
        }
        let temp = self.temp_at(number)?;
        if temp.chunks() != chunks {
            return None;
        }
        Some(temp)
    }

    /// Copies the next chunk of its file's bytes, or what is left of them, into the temp under a
    /// number, where it is kept. It takes no memory.
    pub fn copy_chunk(&mut self, number: usize)
        requires { LacksBytes (job_at self.old number) }
        ensures table { self.new
            ≡ slice_set self.old number (with_chunk (job_at self.old number)) }
        ensures numbers { Changes self.old self.new number
            (with_chunk (job_at self.old number)) }
    {
        copy_into(&mut self.jobs[number]);
    }

    /// Ends all that is kept of a client's jobs.
    pub fn forget(&mut self, client: u64)
        ensures table { self.new ≡ map (unless_of client) self.old }
        ensures numbers { (n : ℕ) → job_at self.new n ≡ unless_of client (job_at self.old n) }
        ensures none { count_by (is_of client) self.new ≡ 0 }
    {
        for job in self.jobs.iter_mut() {
            forget(job, client);
        }
    }
}

// Whether there is a job, with a temp.
fn has_temp(job: &Option<OpenJob>) -> bool
    ensures { result ≡ has_temp job.now }
{
    match job {
        Some(open) => open.temp.is_some(),
        None => false,
    }
}

// Whether there is a job, of the client.
fn is_of(job: &Option<OpenJob>, client: u64) -> bool
    ensures { result ≡ is_of client job.now }
{
    match job {
        Some(open) => open.client == client,
        None => false,
    }
}

// Ends a job, if it is the client's.
fn forget(job: &mut Option<OpenJob>, client: u64)
    ensures { job.new ≡ unless_of client job.old }
{
    if is_of(job, client) {
        *job = None;
    }
}

// Copies the next chunk of its file into the temp of a job.
fn copy_into(job: &mut Option<OpenJob>)
    requires { LacksBytes job.old }
    ensures { job.new ≡ with_chunk job.old }
{
    match job {
        Some(open) => lengthen(&mut open.temp),
        None => unreachable!(),
    }
}

// Copies the next chunk of its file into a temp.
fn lengthen(temp: &mut Option<Temp>)
    requires { IsSomeAnd temp.old
        (λ t. IsBeginning t × (length t.bytes < length t.whole)) }
    ensures { temp.new ≡ option_map longer_beginning temp.old }
{
    match temp {
        Some(temp) => temp.copy_chunk(),
        None => unreachable!(),
    }
}
