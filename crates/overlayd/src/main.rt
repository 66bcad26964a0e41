//! The program: shows the merged tree of a manifest, plays a script on its mount, or serves it.
#![tactic(auto)]

ghost use Rattle.std.specs.Prelude.{◌≡◌, ◌≢◌, IfOk, IsSome, None, OnOk};

mod ending;
mod mounting;

use crate::ending::{Task, closing_in, do_task, ending_of};
use crate::mounting::{Mounting, mounting_of};
use command_line::{Invocation, Playing, Serving, Source, UsageFault, command_line};
use manifest_files::{Described, Failure, STANDARD_INPUT, read_manifest, tell, why_bad};
use ov_devices::{CountedReader, CountedWriter};
use ov_server::{ByTag, Fault, Output, ProgramRule, hooks_by_slot, play_run, show_run};
use server_files::{Saver, Status, acceptor_of, hold_standard, listen};
use socket_server::{Acceptor, Closing, Counts, ServeOptions, Served, serve_endless_on, serve_on};
use std::alloc::Global;
use std::env::Env;
use std::fs::Files;
use std::hash::RandomState;
use std::io::{Eprint, IsTerminal, Print, Read};
use std::net::Net;
use std::os::unix::net::UnixListener;
use std::process::ExitCode;
use std::random::RandomSource;
use std::rt::Runtime;
use std::sync::{Arc, Wait};
use std::thread::Threads;
use std::{env, fs, io, thread};
use watch_table::{Callback, Hook, Rule};

fn main(rt: HostRuntime) -> ExitCode {
    let starts = |task: Task| -> Result<(), Fault> {
        let own = rt.clone()?;
        match thread::spawn(&rt, move || do_task(&own, &task)) {
            Ok(_) => Ok(()),
            Err(_) => Err(Fault::Memory),
        }
    };
    let is_terminal = rt.stderr().is_terminal();
    match run(&rt, is_terminal, &starts) {
        Ok(status) => status,
        Err(fault) => report(&rt, &fault),
    }
}

// The exit status, or the fault of a command line. A thread that closes a server when standard input
// ends is made by what is given.
fn run<R, W>(rt: &R, is_terminal: bool, starts: &W) -> Result<ExitCode, UsageFault>
where
    R: Runtime + AllocGlobal + RandomSource + Net + Threads + Wait + Sync,
    W: Fn(Task) -> Result<(), Fault>,
    requires always { (task : _) → W.pre starts.now task }
{
    let words = words(rt)?;
    let invocation = command_line(rt.alloc(), words.as_slice())?;
    let failure = match done(rt, &invocation, starts) {
        Ok(status) => return Ok(ExitCode::from(status)),
        Err(failure) => failure,
    };
    let source = source_of(&invocation);
    let status = failure.fault.status();
    // A fault that can't be told has its status all the same.
    let _ = tell(rt, &source, is_terminal || source.explain, &failure);
    Ok(ExitCode::from(status))
}

// Does what is asked for, and gives the exit status where nothing is to be told any more.
fn done<R, W>(rt: &R, invocation: &Invocation<'_>, starts: &W) -> Result<u8, Failure>
where
    R: Runtime + AllocGlobal + RandomSource + Net + Threads + Wait + Sync,
    W: Fn(Task) -> Result<(), Fault>,
    requires always { (task : _) → W.pre starts.now task }
{
    let keys = keys(rt)?;
    match invocation {
        Invocation::Show(source) => show(rt, keys, source)?,
        Invocation::Play(playing) => play(rt, keys, playing)?,
        Invocation::Serve(serving) => return serve(rt, keys, serving, starts),
    }
    Ok(0)
}

fn source_of<'a>(invocation: &Invocation<'a>) -> Source<'a> {
    match invocation {
        Invocation::Show(source) => *source,
        Invocation::Play(playing) => playing.source,
        Invocation::Serve(serving) => serving.source,
    }
}

// The keys by which directories hash their names, from the system's randomness. Where it fails, that counts as a stream that failed.
fn keys<R: RandomSource>(rt: &R) -> Result<RandomState, Fault> {
    match RandomState::new(rt) {
        Ok(keys) => Ok(keys),
        Err(fault) if fault.kind() == io::ErrorKind::OutOfMemory => Err(Fault::Memory),
        Err(_) => Err(Fault::Stream),
    }
}

// The words of the command line, the program's name first.
fn words<R: Env + AllocGlobal>(rt: &R) -> Result<Vec<String>, UsageFault> {
    match env::args(rt) {
        Ok(words) => Ok(words.collect(rt.alloc())?),
        Err(fault) if fault.kind() == io::ErrorKind::OutOfMemory => Err(UsageFault::Memory),
        Err(_) => Err(UsageFault::NotText),
    }
}

fn show<R: Runtime + AllocGlobal>(
    rt: &R,
    keys: RandomState,
    source: &Source<'_>,
) -> Result<(), Failure> {
    let Described {
        table,
        blobs,
        above,
    } = read_manifest(rt, source)?;
    let mut output = Output::new(rt.alloc(), CountedWriter::new(io::writer(rt)));
    match show_run(rt.alloc(), keys, table, blobs, &mut output) {
        Ok(()) => Ok(()),
        Err(fault) => Err(Failure::of_mount(fault, above)),
    }
}

fn play<R: Runtime + AllocGlobal>(
    rt: &R,
    keys: RandomState,
    playing: &Playing<'_>,
) -> Result<(), Failure> {
    if playing.source.manifest == STANDARD_INPUT && playing.script.is_none() {
        return Err(Failure::from(Fault::InputTwice));
    }
    let hooks = hooks_by_slot(rt.alloc())?;
    let hooks = hooks.as_slice();
    match playing.script {
        None => play_from(rt, keys, playing, hooks, rt.reader()),
        Some(file) => match fs::open(rt, file) {
            Ok(script) => play_from(rt, keys, playing, hooks, script),
            Err(error) => Err(no_script(rt.alloc(), file, &error)),
        },
    }
}

fn no_script(alloc: Global, file: &str, error: &io::Error) -> Failure {
    Failure::because(
        alloc,
        Fault::CannotReadScript,
        format_args!("{file}: {error}"),
    )
}

// Plays a script that is read from here.
fn play_from<R: Runtime + AllocGlobal, S: Read + Drop>(
    rt: &R,
    keys: RandomState,
    playing: &Playing<'_>,
    hooks: &[Hook<ByTag, ProgramRule>],
    script: S,
) -> Result<(), Failure> {
    let Described {
        table,
        blobs,
        above,
    } = read_manifest(rt, &playing.source)?;
    let mut input = CountedReader::new(script);
    let mut output = Output::new(rt.alloc(), CountedWriter::new(io::writer(rt))).echoing(
        playing.echo,
    );
    let played = play_run(
        rt.alloc(),
        keys,
        table,
        blobs,
        hooks,
        &mut input,
        &mut output,
    );
    match played {
        Ok(()) => Ok(()),
        Err(fault) => Err(of_play(rt.alloc(), fault, above, output.refused())),
    }
}

// The fault of a play, and where that is a bad line, why.
fn of_play(alloc: Global, fault: Fault, above: Option<usize>, line: &[u8]) -> Failure {
    match fault {
        Fault::BadCommand { .. } => Failure {
            fault,
            why: why_bad(alloc, line).ok(),
        },
        fault => Failure::of_mount(fault, above),
    }
}

fn serve<R, W>(rt: &R, keys: RandomState, serving: &Serving<'_>, starts: &W) -> Result<u8, Failure>
where
    R: Runtime + AllocGlobal + Net + Threads + Wait + Sync,
    W: Fn(Task) -> Result<(), Fault>,
    requires always { (task : _) → W.pre starts.now task }
{
    if serving.save.is_some() && serving.sessions.is_none() && !serving.until_eof {
        return Err(Failure::from(Fault::SaveWithoutEnd));
    }
    if serving.no_history && serving.history.is_some() {
        return Err(Failure::from(Fault::HistoryOfNone));
    }
    if serving.until_eof && serving.source.manifest == STANDARD_INPUT {
        return Err(Failure::from(Fault::InputTwice));
    }
    if serving.save.is_some() && serving.save == serving.status {
        let why = "--save and --status name one file";
        return Err(Failure::because(rt.alloc(), Fault::CannotWriteStatus, why));
    }
    hold_standard(rt, serving)?;
    let hooks = hooks_by_slot(rt.alloc())?;
    serve_with(rt, keys, hooks.as_slice(), serving, starts)
}

// The same with hooks of any kind. The mount is there before the socket, so that who can connect is
// served.
fn serve_with<F, H, R, W>(
    rt: &R,
    keys: RandomState,
    hooks: &[Hook<F, H>],
    serving: &Serving<'_>,
    starts: &W,
) -> Result<u8, Failure>
where
    F: Callback + Copy + Send + Sync,
    H: Rule + Send + Sync,
    R: Runtime + AllocGlobal + Net + Threads + Wait + Sync,
    W: Fn(Task) -> Result<(), Fault>,
    requires always { (task : _) → W.pre starts.now task }
{
    let described = read_manifest(rt, &serving.source)?;
    let above = described.above;
    let (mounting, places) = match mounting_of(rt.alloc(), keys, described, serving) {
        Ok(mounted) => mounted,
        Err(fault) => return Err(Failure::of_mount(fault, above)),
    };
    let mut mounting = Some(mounting);
    serve_lent(rt, &mut mounting, places, hooks, serving, starts)
}

// The same of a mount that is lent, and taken when there is a socket: where it fails before, the mount
// is let go at one place.
fn serve_lent<F, H, R, W>(
    rt: &R,
    mounting: &mut Option<Mounting<F, H>>,
    places: u32,
    hooks: &[Hook<F, H>],
    serving: &Serving<'_>,
    starts: &W,
) -> Result<u8, Failure>
where
    F: Callback + Copy + Send + Sync,
    H: Rule + Send + Sync,
    R: Runtime + AllocGlobal + Net + Threads + Wait + Sync,
    W: Fn(Task) -> Result<(), Fault>,
    requires mounted { IsSome mounting.old }
    requires always { (task : _) → W.pre starts.now task }
{
    let mut saver = Saver::new(rt, serving)?;
    let status = Status::new(rt, serving, places)?;
    let listener = listen(rt, serving)?;
    let acceptor = acceptor_of(rt.alloc(), &listener, serving)?;
    let closing = ending_of(rt.alloc(), &listener, serving, starts)?;
    start_status(&status, starts)?;
    let beside = Beside {
        acceptor,
        closing,
        status,
    };
    let options = options_of(serving.socket, serving, places, &beside);
    let Some(mounting) = mounting.take() else {
        unreachable!()
    };
    let served = serve_mounting(rt, &listener, mounting, hooks, &options, &mut saver);
    end_status(rt, &beside.status);
    let served = served?;
    saver.outcome?;
    match served {
        Served::Done | Served::Stopped => Ok(0),
        Served::Failed => Ok(Fault::Socket.status()),
    }
}

// Has a thread write the status, if that is asked for.
fn start_status<W: Fn(Task) -> Result<(), Fault>>(
    status: &Option<Arc<Status, Global>>,
    starts: &W,
) -> Result<(), Fault>
    requires always { (task : _) → W.pre starts.now task }
{
    match status {
        Some(status) => starts(Task::Tell(Arc::try_clone(status)?)),
        None => Ok(()),
    }
}

// The server has ended, which the status tells.
fn end_status<R: Files + Wait + AllocGlobal>(rt: &R, status: &Option<Arc<Status, Global>>) {
    if let Some(status) = status {
        status.end(rt);
    }
}

// Serves a mount, whose history is kept or isn't, until the server ends.
fn serve_mounting<F, H, R>(
    rt: &R,
    listener: &UnixListener,
    mounting: Mounting<F, H>,
    hooks: &[Hook<F, H>],
    options: &ServeOptions<'_>,
    saver: &mut Saver<'_, '_, R>,
) -> Result<Served, Fault>
where
    F: Callback + Copy + Send + Sync,
    H: Rule + Send + Sync,
    R: Runtime + AllocGlobal + Net + Threads + Wait + Sync,
    ensures saved { OnOk result (saver.new.target ≡ None) }
    ensures stopped { IfOk result (λ end. options.now.closing ≡ None → end ≢ Served.Stopped) }
{
    let alloc = rt.alloc();
    match mounting {
        Mounting::Kept(blank) => {
            let end = serve_on(rt, alloc, listener, blank, hooks, options, saver)?;
            Ok(end)
        }
        Mounting::Endless(blank) => {
            let end = serve_endless_on(rt, alloc, listener, blank, hooks, options, saver)?;
            Ok(end)
        }
    }
}

// What a server has beside it: who turns others away, what ends it, and where it is told what it counts.
#[derive(Drop)]
struct Beside {
    acceptor: Option<Acceptor>,
    closing: Option<Arc<Closing, Global>>,
    status: Option<Arc<Status, Global>>,
}

// What is counted for a status.
fn counts_in(status: &Option<Arc<Status, Global>>) -> Option<&Counts> {
    match status {
        Some(status) => Some(&status.counts),
        None => None,
    }
}

// How a server is asked for, at this socket, and what it has beside it.
fn options_of<'a>(
    socket: &'a str,
    serving: &Serving<'_>,
    places: u32,
    beside: &'a Beside,
) -> ServeOptions<'a> {
    let acceptor = beside.acceptor.as_ref();
    let closing = closing_in(&beside.closing);
    let counts = counts_in(&beside.status);
    ServeOptions {
        socket,
        workers: serving.workers as usize,
        history: places as usize,
        sessions: serving.sessions,
        idle: serving.idle,
        acceptor,
        closing,
        counts,
        verbose: serving.verbose,
    }
}

// Tells the fault of a command line and gives the exit status. The texts are its parser's own.
fn report<R: Print + Eprint>(rt: &R, fault: &UsageFault) -> ExitCode {
    let told = match fault {
        UsageFault::CommandLine(error) => error.print(rt),
        fault => eprintln!(rt; "overlayd: {fault}"),
    };
    match told {
        Ok(()) => ExitCode::from(fault.status()),
        Err(_) => report_untold(rt, fault),
    }
}

// The same where the telling failed: for help, which standard output didn't take, it is a fault of its own.
fn report_untold<R: Eprint>(rt: &R, fault: &UsageFault) -> ExitCode {
    if fault.status() == 0 {
        let stream = Fault::Stream;
        let _ = eprintln!(rt; "overlayd: {stream}");
        ExitCode::from(stream.status())
    } else {
        ExitCode::from(fault.status())
    }
}
