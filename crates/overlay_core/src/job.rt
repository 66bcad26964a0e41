// Jobs: calls of clients on their way.
ghost use Rattle.std.specs.Prelude.{◌≡◌, ◌≢◌, ◌+◌, ◌-◌, ◌*◌, ◌<◌, ◌≤◌, None, Some};
ghost use Rattle.work_dir.specs.declared.limits.TheConstants.{PLACINGS_MAX, BEGINS_MAX, CHUNKS_MAX, STEPS_MAX};
ghost use Rattle.overlay_core.specs.Standings.{one_if_over};

use ov_base::Call;

/// Where a job stands: its call still has steps to make, or was answered, or was given up when out
/// of memory.
#[derive(Clone, Copy, Debug, PartialEq, Eq)]
pub enum Standing {
    Open,
    Answered,
    GivenUp,
}

/// A call of a client that is on its way, the number under which a core keeps it, and how many
/// steps it made of each kind. A job that is open ends by `Core::drop_job` or by its last step; one
/// that is over by `into_call`.
pub struct Job {
    number: Option<usize>,
    client: u64,
    call: Call,
    standing: Standing,
    steps: usize,
    placings: usize,
    begins: usize,
    // Since the last begin.
    chunks: usize,
    ghost placed: { placings ≤ PLACINGS_MAX },
    ghost begun: { begins ≤ BEGINS_MAX },
    ghost copied: { chunks ≤ CHUNKS_MAX },
    ghost since: { chunks ≤ CHUNKS_MAX * begins },
    ghost few: { steps + CHUNKS_MAX ≤ placings + (CHUNKS_MAX + 1) * begins + chunks + CHUNKS_MAX * (1 - begins) + one_if_over standing },
}

impl Job {
    ghost use Rattle.overlay_core.specs.Steps.{Counts, IsStepped};

    /// A job that makes a call of a client.
    pub fn new(client: u64, call: Call) -> Job
        ensures call { (result.client ≡ client) × (result.call ≡ call) }
        ensures open { result.standing ≡ Standing.Open }
        ensures unknown { result.number ≡ None }
        ensures none { (result.steps ≡ 0) × (result.placings ≡ 0)
            × (result.begins ≡ 0) × (result.chunks ≡ 0) }
    {
        Job {
            number: None,
            client,
            call,
            standing: Standing::Open,
            steps: 0,
            placings: 0,
            begins: 0,
            chunks: 0,
        }
    }

    /// Whose call it is.
    pub fn client(&self) -> u64
        ensures { result ≡ self.now.client }
    {
        self.client
    }

    /// The call.
    pub fn call(&self) -> &Call
        ensures { result.now ≡ self.now.call }
    {
        &self.call
    }

    /// Where the job stands.
    pub fn standing(&self) -> Standing
        ensures { result ≡ self.now.standing }
    {
        self.standing
    }

    /// How many steps it made; no job makes more than 66,049.
    pub fn steps(&self) -> usize
        ensures value { result ≡ self.now.steps }
        ensures few { result ≤ STEPS_MAX }
        ensures open { self.now.standing ≡ Standing.Open → result < STEPS_MAX }
    {
        self.steps
    }

    // The number under which a core keeps it.
    pub(crate) fn number(&self) -> Option<usize>
        ensures { result ≡ self.now.number }
    {
        self.number
    }

    // How many parents it placed.
    pub(crate) fn placings(&self) -> usize
        ensures { result ≡ self.now.placings }
    {
        self.placings
    }

    // How many temps it began.
    pub(crate) fn begins(&self) -> usize
        ensures { result ≡ self.now.begins }
    {
        self.begins
    }

    // How many chunks it copied since.
    pub(crate) fn chunks(&self) -> usize
        ensures { result ≡ self.now.chunks }
    {
        self.chunks
    }

    /// The call of a job that is over.
    pub fn into_call(self) -> Call
        requires { self.standing ≢ Standing.Open }
        ensures { result ≡ self.call }
    {
        self.let_go()
    }

    // Takes a job apart.
    pub(crate) fn let_go(self) -> Call
        ensures { result ≡ self.call }
    {
        let Job {
            number: _,
            client: _,
            call,
            standing: _,
            steps: _,
            placings: _,
            begins: _,
            chunks: _,
        } = self;
        call
    }

    // Notes a step that placed a parent; the core keeps the job under this number.
    pub(crate) fn place(&mut self, number: usize)
        requires open { self.old.standing ≡ Standing.Open }
        requires few { self.old.placings < PLACINGS_MAX }
        ensures stepped { IsStepped self.old self.new }
        ensures standing { self.new.standing ≡ Standing.Open }
        ensures number { self.new.number ≡ Some number }
        ensures counts { Counts self.new (self.old.placings + 1) self.old.begins self.old.chunks }
    {
        self.number = Some(number);
        self.placings += 1;
        self.steps += 1;
    }

    // Notes a step that began a temp.
    pub(crate) fn begin(&mut self, number: usize)
        requires open { self.old.standing ≡ Standing.Open }
        requires few { self.old.begins < BEGINS_MAX }
        ensures stepped { IsStepped self.old self.new }
        ensures standing { self.new.standing ≡ Standing.Open }
        ensures number { self.new.number ≡ Some number }
        ensures counts { Counts self.new self.old.placings (self.old.begins + 1) 0 }
    {
        self.number = Some(number);
        self.begins += 1;
        self.chunks = 0;
        self.steps += 1;
    }

    // Notes a step that copied a chunk.
    pub(crate) fn copy(&mut self, number: usize)
        requires open { self.old.standing ≡ Standing.Open }
        requires begun { 0 < self.old.begins }
        requires few { self.old.chunks < CHUNKS_MAX }
        ensures stepped { IsStepped self.old self.new }
        ensures standing { self.new.standing ≡ Standing.Open }
        ensures number { self.new.number ≡ Some number }
        ensures counts { Counts self.new self.old.placings self.old.begins (self.old.chunks + 1) }
    {
        self.number = Some(number);
        self.chunks += 1;
        self.steps += 1;
    }

    // Notes the last step.
    pub(crate) fn end(&mut self, standing: Standing)
        requires open { self.old.standing ≡ Standing.Open }
        requires over { one_if_over standing ≡ 1 }
        ensures stepped { IsStepped self.old self.new }
        ensures standing { self.new.standing ≡ standing }
        ensures number { self.new.number ≡ None }
    {
        self.number = None;
        self.steps += 1;
        self.standing = standing;
    }
}
