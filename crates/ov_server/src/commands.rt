// One line of a script on a mount.
ghost use Rattle.std.specs.Prelude.{◌≡◌, ◌+◌, ◌<◌, ◌≤◌, true, Some, None, Ok, length, map};
ghost use Rattle.std.specs.Prelude.{IfErr, IfOk, IsErr, IsOk, OnErr, OnOk};
ghost use Rattle.ov_script.specs.declared.script.Command.TheVariants as asked;
ghost use Rattle.ov_base.specs.Calls.{call_of};
ghost use Rattle.overlay_core.specs.Views.{CoreGoes, core_finished, core_room, has_client, next_client};
ghost use Rattle.plain_model.specs.Runs as runs;
ghost use Rattle.ov_server.specs.Deeds.{AttachGoes, CallGoes, TextGoes};
ghost use Rattle.overlay_core.specs.Histories as histories;
ghost use Rattle.overlay_core.specs.Histories.{HasPlaces};
ghost use Rattle.ov_server.specs.Histories.{AnswersAttach, AnswersCall, call_refusal};
ghost use Rattle.ov_server.specs.Stages.{IsInOrder, KeepsCalls, KeepsOtherCalls};
ghost use Rattle.ov_server.specs.declared.answers.Answer.TheVariants as answers;
ghost use Rattle.ov_server.specs.Rosters as rosters;
ghost use Rattle.ov_server.specs.Plays as plays;
ghost use Rattle.ov_server.specs.Plays.{CannotPlay, IsRefusal, PlaysCommand, PlaysLine, TellsLine};

use crate::answers::{Answer, write_answer};
use crate::devices::Output;
use crate::fault::DeviceFault;
use crate::print_tree::{write_layer, write_merge};
use crate::stage::Stage;
use crate::stepping::{answer_of, dropped, started, stepped, temps_of};
use ov_base::{Call, Errno};
use ov_devices::Sink;
use ov_script::{BadCommand, CallText, Command, command_of};
use overlay_core::{Core, Job};
use std::alloc::{AllocError, Global};
use watch_table::{Callback, Hook, Rule, copies_of};

/// Why a line could not be played.
#[derive(Drop)]
pub enum LineFault {
    BadCommand,
    Device(DeviceFault),
}

/// Plays a line on a mount, where each client comes with copies of these hooks, and puts its answer out,
/// and before it the line where that is asked for.
pub fn play_line<K: Sink, F: Callback + Copy, H: Rule>(
    alloc: Global,
    stage: &mut Stage<F, H>,
    hooks: &[Hook<F, H>],
    line: &[u8],
    output: &mut Output<K>,
) -> Result<(), LineFault>
    requires { IsInOrder stage.old }
    ensures order { IsInOrder stage.new }
    ensures counted { core_finished stage.new.core ≤ core_finished stage.old.core + 1 }
    ensures ok { OnOk result (PlaysLine stage.old line.now stage.new) }
    ensures err { IfErr result (IsRefusal stage.old line.now) }
    ensures stream { TellsLine (K.failures output.old.sink) (K.failures output.new.sink) result }
{
    if is_skipped(line) {
        Ok(())
    } else {
        output.echo(line)?;
        play_command(alloc, stage, hooks, command_of(line)?, output)
    }
}

// Whether a line does nothing: it is empty or a comment.
fn is_skipped(line: &[u8]) -> bool
    ensures { result ≡ rosters.is_skipped line.now }
{
    match line {
        [] => true,
        [first, ..] => *first == b'#',
    }
}

// Plays a command and puts its answer out.
fn play_command<K: Sink, F: Callback + Copy, H: Rule>(
    alloc: Global,
    stage: &mut Stage<F, H>,
    hooks: &[Hook<F, H>],
    command: Command<'_>,
    output: &mut Output<K>,
) -> Result<(), LineFault>
    requires { IsInOrder stage.old }
    ensures order { IsInOrder stage.new }
    ensures counted { core_finished stage.new.core ≤ core_finished stage.old.core + 1 }
    ensures ok { OnOk result (PlaysCommand stage.old command.entry stage.new) }
    ensures err { IfErr result (plays.IsCommandRefusal stage.old command.entry) }
    ensures stream { TellsLine (K.failures output.old.sink) (K.failures output.new.sink) result }
{
    match command {
        Command::Attach => put_answer(attached(alloc, stage, hooks), output),
        Command::Detach { client } => put_played(detached(stage, client), output),
        Command::Call { client, call } => { put_played(called(alloc, stage, client, call), output) }
        Command::Start { client, call } => {
            put_started(started(alloc, stage, client, call), output)
        }
        Command::Step { client, steps } => put_played(stepped(stage, client, steps), output),
        Command::Drop { client } => put_played(dropped(stage, client), output),
        Command::Layer { index } => put_layer(alloc, stage, index, output),
        Command::Merge => put_merge(alloc, stage, output),
        Command::Work => put_answer(temps_of(stage), output),
    }
}

// Puts the answer to a command out, if it could be played.
fn put_played<K: Sink>(
    answer: Result<Answer, BadCommand>,
    output: &mut Output<K>,
) -> Result<(), LineFault>
    ensures ok { OnOk result (IsOk answer) }
    ensures err { IfErr result (λ fault. fault ≡ plays.bad_line → IsErr answer) }
    ensures stream { TellsLine (K.failures output.old.sink) (K.failures output.new.sink) result }
{
    put_answer(answer?, output)
}

// Puts the answer to a start out, if it could be played and there is one.
fn put_started<K: Sink>(
    answer: Result<Option<Answer>, BadCommand>,
    output: &mut Output<K>,
) -> Result<(), LineFault>
    ensures ok { OnOk result (IsOk answer) }
    ensures err { IfErr result (λ fault. fault ≡ plays.bad_line → IsErr answer) }
    ensures stream { TellsLine (K.failures output.old.sink) (K.failures output.new.sink) result }
{
    match answer? {
        Some(answer) => put_answer(answer, output),
        None => Ok(()),
    }
}

// Puts an answer out, which is let go here, at the one place of all.
fn put_answer<K: Sink>(answer: Answer, output: &mut Output<K>) -> Result<(), LineFault>
    ensures err { IfErr result plays.IsOfDevice }
    ensures stream { TellsLine (K.failures output.old.sink) (K.failures output.new.sink) result }
{
    let written = write_answer(&answer, &mut output.text);
    drop(answer);
    written?;
    output.relieve()?;
    Ok(())
}

fn put_layer<K: Sink, F: Callback, H: Rule>(
    alloc: Global,
    stage: &Stage<F, H>,
    index: u32,
    output: &mut Output<K>,
) -> Result<(), LineFault>
    ensures ok { OnOk result (PlaysCommand stage.now (asked.Layer index) stage.now) }
    ensures err { IfErr result (plays.IsCommandRefusal stage.now (asked.Layer index)) }
    ensures stream { TellsLine (K.failures output.old.sink) (K.failures output.new.sink) result }
{
    if !has_layer(&stage.core, index) {
        return Err(LineFault::BadCommand);
    }
    write_layer(alloc, stage.core.layers(), index as usize, output)?;
    Ok(())
}

/// Whether a mount has a layer of this number: the upper, where there is one, has 0.
pub fn has_layer<F: Callback, H: Rule>(core: &Core<F, H>, index: u32) -> bool
    ensures { result ≡ rosters.is_layer (plays.layers_in core.now) index }
{
    if index == 0 {
        core.has_upper()
    } else {
        core.layers().layer(index as usize).is_some()
    }
}

fn put_merge<K: Sink, F: Callback, H: Rule>(
    alloc: Global,
    stage: &Stage<F, H>,
    output: &mut Output<K>,
) -> Result<(), LineFault>
    ensures err { IfErr result plays.IsOfDevice }
    ensures stream { TellsLine (K.failures output.old.sink) (K.failures output.new.sink) result }
{
    write_merge(alloc, stage.core.layers(), output)?;
    Ok(())
}

fn attached<F: Callback + Copy, H: Rule>(
    alloc: Global,
    stage: &mut Stage<F, H>,
    hooks: &[Hook<F, H>],
) -> Answer
    requires { IsInOrder stage.old }
    ensures order { IsInOrder stage.new }
    ensures counted { core_finished stage.new.core ≤ core_finished stage.old.core + 1 }
    ensures plays { PlaysCommand stage.old asked.Attach stage.new }
    ensures answer { AnswersAttach (histories.attach_refusal stage.old.core (length hooks.now))
        (next_client stage.old.core) result }
    ensures refused { (errno : Errno) →
        histories.attach_refusal stage.old.core (length hooks.now) ≡ Some errno →
        stage.new ≡ stage.old }
    ensures goes { AttachGoes stage.old.core (map (λ h. h.tag) hooks.now) stage.new.core result }
    ensures calls { KeepsCalls stage.old stage.new }
{
    if let Some(errno) = stage.core.attach_refusal(hooks.len()) {
        return Answer::NotAttached { errno };
    }
    let Ok(copies) = copies_of(alloc, hooks) else {
        return Answer::NotAttached {
            errno: Errno::ENOMEM,
        };
    };
    match stage.core.attach(copies) {
        Ok(client) => Answer::Attached { client },
        Err(_) => Answer::NotAttached {
            errno: Errno::ENOMEM,
        },
    }
}

// Detaches a client; its call that is on its way is dropped first.
fn detached<F: Callback + Drop, H: Rule>(
    stage: &mut Stage<F, H>,
    client: u32,
) -> Result<Answer, BadCommand>
    requires { IsInOrder stage.old }
    ensures order { IsInOrder stage.new }
    ensures counted { core_finished stage.new.core ≤ core_finished stage.old.core + 1 }
    ensures ok { OnOk result (PlaysCommand stage.old (asked.Detach client) stage.new) }
    ensures err { OnErr result (CannotPlay stage.old (asked.Detach client)) }
    ensures answer { IfOk result (λ answer. answer ≡ answers.Detached client) }
    ensures goes { OnOk result (CoreGoes stage.old.core client runs.Detached stage.new.core) }
    ensures others { KeepsOtherCalls stage.old stage.new client }
    ensures refused { OnErr result (stage.new ≡ stage.old) }
{
    if !stage.core.is_attached(client as u64) {
        return Err(BadCommand);
    }
    stage.drop_call(client as u64);
    let _ = stage.core.detach(client as u64);
    Ok(Answer::Detached { client })
}

fn called<F: Callback, H: Rule>(
    alloc: Global,
    stage: &mut Stage<F, H>,
    client: u32,
    text: CallText<'_>,
) -> Result<Answer, BadCommand>
    requires { IsInOrder stage.old }
    ensures order { IsInOrder stage.new }
    ensures counted { core_finished stage.new.core ≤ core_finished stage.old.core + 1 }
    ensures ok { OnOk result (PlaysCommand stage.old (asked.Call client text.entry) stage.new) }
    ensures err { OnErr result (CannotPlay stage.old (asked.Call client text.entry)) }
    ensures answer { IfOk result (
        AnswersCall (call_refusal (core_room stage.old.core) (call_of text.entry)) client) }
    ensures goes { IfOk result (
        TextGoes stage.old.core client (call_of text.entry) stage.new.core) }
    ensures calls { KeepsCalls stage.old stage.new }
    ensures refused { OnErr result (stage.new ≡ stage.old) }
    ensures full { core_room stage.old.core ≡ 0 → stage.new ≡ stage.old }
{
    if stage.may_call(client as u64) {
        Ok(call_answer(alloc, &mut stage.core, client, text))
    } else {
        Err(BadCommand)
    }
}

// The answer to a call of a client that is attached.
fn call_answer<F: Callback, H: Rule>(
    alloc: Global,
    core: &mut Core<F, H>,
    client: u32,
    text: CallText<'_>,
) -> Answer
    requires attached { has_client core.old client ≡ true }
    requires places { HasPlaces core.old }
    ensures places { HasPlaces core.new }
    ensures counted { core_finished core.new ≤ core_finished core.old + 1 }
    ensures keeps { plays.KeepsClients core.old core.new }
    ensures answer { AnswersCall (call_refusal (core_room core.old) (call_of text.entry)) client result }
    ensures goes { TextGoes core.old client (call_of text.entry) core.new result }
    ensures full { core_room core.old ≡ 0 → core.new ≡ core.old }
{
    match text.read(alloc) {
        Ok(Ok(call)) => answer_in_room(core, client, call),
        Ok(Err(errno)) => Answer::NotTaken { client, errno },
        Err(AllocError) => Answer::NotTaken {
            client,
            errno: Errno::ENOMEM,
        },
    }
}

// The answer to a call, which is not taken where the history has no place left.
fn answer_in_room<F: Callback, H: Rule>(core: &mut Core<F, H>, client: u32, call: Call) -> Answer
    requires attached { has_client core.old client ≡ true }
    requires places { HasPlaces core.old }
    ensures places { HasPlaces core.new }
    ensures counted { core_finished core.new ≤ core_finished core.old + 1 }
    ensures keeps { plays.KeepsClients core.old core.new }
    ensures answer { AnswersCall (call_refusal (core_room core.old) (Ok call)) client result }
    ensures goes { CallGoes core.old client call core.new result }
    ensures full { core_room core.old ≡ 0 → core.new ≡ core.old }
{
    if let Some(errno) = core.call_refusal() {
        drop(call);
        return Answer::NotTaken { client, errno };
    }
    made(core, client, call)
}

// The answer to a call for which there is a place. All its steps are made.
fn made<F: Callback, H: Rule>(core: &mut Core<F, H>, client: u32, call: Call) -> Answer
    requires attached { has_client core.old client ≡ true }
    requires places { HasPlaces core.old }
    requires room { 0 < core_room core.old }
    ensures places { HasPlaces core.new }
    ensures counted { core_finished core.new ≤ core_finished core.old + 1 }
    ensures keeps { plays.KeepsClients core.old core.new }
    ensures answer { AnswersCall None client result }
    ensures goes { CallGoes core.old client call core.new result }
{
    let mut job = Job::new(client as u64, call);
    let turn = core.complete(&mut job);
    drop(job.into_call());
    answer_of(client, turn)
}

impl From<BadCommand> for LineFault {
    ghost from_gives = { λ _ fault. fault ≡ plays.bad_line };

    fn from(_fault: BadCommand) -> LineFault {
        LineFault::BadCommand
    }
}

impl From<DeviceFault> for LineFault {
    ghost from_gives = { λ fault gave. gave ≡ plays.device fault };

    fn from(fault: DeviceFault) -> LineFault {
        LineFault::Device(fault)
    }
}

impl From<AllocError> for LineFault {
    ghost from_gives = { λ _ gave. gave ≡ plays.line_memory };

    fn from(_fault: AllocError) -> LineFault {
        LineFault::Device(DeviceFault::Memory)
    }
}
