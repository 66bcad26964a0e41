// The commands that make a call in steps.
ghost use Rattle.std.specs.Prelude.{◌≡◌, ◌+◌, ◌<◌, ◌≤◌, ◌^◌, true, None, IfOk, OnErr, OnOk, count_by};
ghost use Rattle.ov_script.specs.declared.script.Command.TheVariants as asked;
ghost use Rattle.ov_base.specs.Calls.{call_of};
ghost use Rattle.overlay_core.specs.Views.{CoreSame, core_finished, core_room, core_work, has_client};
ghost use Rattle.ov_server.specs.Deeds.{StartGoes, StepGoes, StepsJob, answer_of};
ghost use Rattle.overlay_core.specs.Histories.{room_refusal};
ghost use Rattle.ov_server.specs.Histories.{AnswersStart, AnswersStep};
ghost use Rattle.ov_server.specs.Plays.{CannotPlay, KeepsClients, PlaysCommand};
ghost use Rattle.ov_server.specs.Stages.{IsInOrder, KeepsOtherCalls, is_calling, open_call};
ghost use Rattle.ov_server.specs.declared.answers.Answer.TheVariants as answers;
ghost use Rattle.work_dir.specs.OpenJobs.{has_temp};

use crate::answers::Answer;
use crate::stage::Stage;
use ov_base::Errno;
use ov_script::{BadCommand, CallText};
use overlay_core::{Core, Job, Standing, Turn};
use std::alloc::{AllocError, Global};
use watch_table::{Callback, Rule};

/// Starts a call: its job is made, and no step of it. There is an answer only where none is made.
pub fn started<F: Callback, H: Rule>(
    alloc: Global,
    stage: &mut Stage<F, H>,
    client: u32,
    text: CallText<'_>,
) -> Result<Option<Answer>, BadCommand>
    requires { IsInOrder stage.old }
    ensures order { IsInOrder stage.new }
    ensures core { CoreSame stage.old.core stage.new.core }
    ensures ok { OnOk result (PlaysCommand stage.old (asked.Start client text.entry) stage.new) }
    ensures err { OnErr result (CannotPlay stage.old (asked.Start client text.entry)) }
    ensures answer { IfOk result (AnswersStart (call_of text.entry) client) }
    ensures goes { IfOk result (StartGoes stage.old client (call_of text.entry) stage.new) }
    ensures others { KeepsOtherCalls stage.old stage.new client }
    ensures refused { OnErr result (stage.new ≡ stage.old) }
{
    if stage.may_call(client as u64) {
        Ok(start_answer(alloc, stage, client, text))
    } else {
        Err(BadCommand)
    }
}

// The same for a client that may make a call.
fn start_answer<F: Callback, H: Rule>(
    alloc: Global,
    stage: &mut Stage<F, H>,
    client: u32,
    text: CallText<'_>,
) -> Option<Answer>
    requires free { open_call stage.old client ≡ None }
    ensures core { CoreSame stage.old.core stage.new.core }
    ensures answer { AnswersStart (call_of text.entry) client result }
    ensures goes { StartGoes stage.old client (call_of text.entry) stage.new result }
    ensures others { KeepsOtherCalls stage.old stage.new client }
{
    let errno = match text.read(alloc) {
        Ok(Ok(call)) => match stage.start(client as u64, call) {
            Ok(()) => return None,
            Err(AllocError) => Errno::ENOMEM,
        },
        Ok(Err(errno)) => errno,
        Err(AllocError) => Errno::ENOMEM,
    };
    Some(Answer::NotTaken { client, errno })
}

/// Makes so many steps of a client's call, fewer where it ends, and then answers as a call is
/// answered. Where the history has no place left it is dropped.
pub fn stepped<F: Callback, H: Rule>(
    stage: &mut Stage<F, H>,
    client: u32,
    steps: u64,
) -> Result<Answer, BadCommand>
    requires { IsInOrder stage.old }
    ensures order { IsInOrder stage.new }
    ensures counted { core_finished stage.new.core ≤ core_finished stage.old.core + 1 }
    ensures ok { OnOk result (PlaysCommand stage.old (asked.Step client steps) stage.new) }
    ensures err { OnErr result (CannotPlay stage.old (asked.Step client steps)) }
    ensures answer { IfOk result (AnswersStep (room_refusal (core_room stage.old.core)) client) }
    ensures goes { IfOk result (StepGoes stage.old client steps stage.new) }
    ensures others { KeepsOtherCalls stage.old stage.new client }
    ensures refused { OnErr result (stage.new ≡ stage.old) }
{
    if stage.is_calling(client as u64) {
        Ok(step_answer(stage, client, steps))
    } else {
        Err(BadCommand)
    }
}

// The same for a client that has a call on its way.
fn step_answer<F: Callback, H: Rule>(stage: &mut Stage<F, H>, client: u32, steps: u64) -> Answer
    requires calling { is_calling stage.old client ≡ true }
    requires order { IsInOrder stage.old }
    ensures order { IsInOrder stage.new }
    ensures counted { core_finished stage.new.core ≤ core_finished stage.old.core + 1 }
    ensures keeps { KeepsClients stage.old.core stage.new.core }
    ensures answer { AnswersStep (room_refusal (core_room stage.old.core)) client result }
    ensures goes { StepGoes stage.old client steps stage.new result }
    ensures others { KeepsOtherCalls stage.old stage.new client }
{
    if let Some(errno) = stage.core.call_refusal() {
        stage.drop_call(client as u64);
        return Answer::NotTaken { client, errno };
    }
    answer_in_room(stage, client, steps)
}

// The same where the history has a place.
fn answer_in_room<F: Callback, H: Rule>(stage: &mut Stage<F, H>, client: u32, steps: u64) -> Answer
    requires calling { is_calling stage.old client ≡ true }
    requires order { IsInOrder stage.old }
    requires room { 0 < core_room stage.old.core }
    ensures order { IsInOrder stage.new }
    ensures counted { core_finished stage.new.core ≤ core_finished stage.old.core + 1 }
    ensures keeps { KeepsClients stage.old.core stage.new.core }
    ensures answer { AnswersStep None client result }
    ensures goes { StepGoes stage.old client steps stage.new result }
    ensures others { KeepsOtherCalls stage.old stage.new client }
{
    match stage.step(client as u64, steps) {
        Turn::More => Answer::More { client },
        over => {
            stage.drop_call(client as u64);
            answer_of(client, over)
        }
    }
}

/// The answer to a call by what its last step gave.
pub fn answer_of(client: u32, turn: Turn) -> Answer
    ensures { result ≡ answer_of client turn }
{
    match turn {
        Turn::More => Answer::More { client },
        Turn::Done(reply) => Answer::Replied { client, reply },
        Turn::NoMemory => {
            let errno = Errno::ENOMEM;
            Answer::NotTaken { client, errno }
        }
    }
}

/// Makes so many steps of a job, fewer where it ends.
pub fn steps_of_job<F: Callback, H: Rule>(core: &mut Core<F, H>, job: &mut Job, steps: u64) -> Turn
    requires open { job.old.standing ≡ Standing.Open }
    requires attached { has_client core.old job.old.client ≡ true }
    requires bound { core_finished core.old + 1 < 2 ^ 63 }
    ensures { StepsJob core.old job.old steps core.new job.new result }
{
    for _step in 0..steps {
        match core.advance(job) {
            Turn::More => {}
            over => return over,
        }
    }
    Turn::More
}

/// Drops a client's call.
pub fn dropped<F: Callback, H: Rule>(
    stage: &mut Stage<F, H>,
    client: u32,
) -> Result<Answer, BadCommand>
    requires { IsInOrder stage.old }
    ensures order { IsInOrder stage.new }
    ensures core { CoreSame stage.old.core stage.new.core }
    ensures ok { OnOk result (PlaysCommand stage.old (asked.Drop client) stage.new) }
    ensures err { OnErr result (CannotPlay stage.old (asked.Drop client)) }
    ensures answer { IfOk result (λ answer. answer ≡ answers.Dropped client) }
    ensures gone { OnOk result (open_call stage.new client ≡ None) }
    ensures others { KeepsOtherCalls stage.old stage.new client }
    ensures refused { OnErr result (stage.new ≡ stage.old) }
{
    if !stage.is_calling(client as u64) {
        return Err(BadCommand);
    }
    stage.drop_call(client as u64);
    Ok(Answer::Dropped { client })
}

/// How many temps there are.
pub fn temps_of<F: Callback, H: Rule>(stage: &Stage<F, H>) -> Answer
    ensures { result ≡ answers.Work (count_by has_temp (core_work stage.now.core)) }
{
    let temps = stage.core.temps() as u64;
    Answer::Work { temps }
}
