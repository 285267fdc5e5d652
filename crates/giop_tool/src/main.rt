//! The program `giop`: it does what its words ask for on its standard streams, or serves over TCP.
#![tactic(auto)]

mod help;
mod options;
mod settings;
mod tracing;

ghost use Rattle.giop_run.specs.Settings.{IsInRange, IsServable};
ghost use Rattle.giop_tool.specs.Settings.{IsMeant};

use giop_run::{FAILED, REFUSED, Service, Streams, Task, run, serve};
use help::Texts;
use settings::{Setting, SettingError, settings};
use std::hash::RandomState;
use std::io::IsTerminal;
use std::process::ExitCode;
use std::{env, io};
use tracing::run_trace;

/// Serves on the standard streams, and returns the exit status.
fn run_service(rt: &HostRuntime, service: &Service, hasher: RandomState) -> u8
    requires { IsServable service.now }
{
    let (mut out, mut err) = (rt.stdout(), rt.stderr());
    serve(
        rt.alloc(),
        rt,
        service,
        hasher,
        &mut out,
        &mut err,
        rt.stderr(),
    )
}

/// Does a task on the standard streams, and returns the exit status.
fn run_task(rt: &HostRuntime, task: &Task, hasher: RandomState) -> u8
    requires { IsInRange task.now }
{
    let (mut input, mut out, mut err) = (rt.stdin(), rt.stdout(), rt.stderr());
    let (is_typed, is_read) = (input.is_terminal(), err.is_terminal());
    let mut streams = Streams {
        input: &mut input,
        out: &mut out,
        err: &mut err,
        is_typed,
        is_read,
    };
    run(rt.alloc(), rt, task, hasher, &mut streams)
}

/// Does what a setting asks for, and returns the exit status.
fn run_setting(rt: &HostRuntime, setting: &Setting) -> io::Result<u8>
    requires { IsMeant setting.now }
{
    match setting {
        Setting::Run(task) => Ok(run_task(rt, task, RandomState::new(rt)?)),
        Setting::Serve(service) => Ok(run_service(rt, service, RandomState::new(rt)?)),
        Setting::Trace(tracing) => Ok(run_trace(rt, tracing)),
    }
}

/// Prints the answer to words without a setting, help among them, and returns the exit status.
fn print_answer(rt: &HostRuntime, error: &SettingError) -> io::Result<u8> {
    match error {
        SettingError::Words(error) => {
            error.print(rt)?;
            Ok(error.exit_code() as u8)
        }
        SettingError::Range => {
            eprintln!(rt; "range")?;
            Ok(REFUSED)
        }
        SettingError::Memory => {
            eprintln!(rt; "memory")?;
            Ok(FAILED)
        }
    }
}

/// Does what the words after the program's name ask for, and returns the exit status.
fn run_words(rt: &HostRuntime) -> io::Result<u8> {
    let alloc = rt.alloc();
    let words: Vec<String> = env::args(rt)?.collect(alloc)?;
    let mut given = Vec::with_capacity(alloc, words.len())?;
    for word in words.iter().skip(1) {
        given.push(word.as_str())?;
    }
    let texts = Texts::new(alloc)?;
    match settings(alloc, &texts, given.as_slice()) {
        Ok(setting) => run_setting(rt, &setting),
        Err(error) => print_answer(rt, &error),
    }
}

fn main(rt: HostRuntime) -> ExitCode {
    match run_words(&rt) {
        Ok(status) => ExitCode::from(status),
        Err(error) => {
            if error.kind() == io::ErrorKind::OutOfMemory {
                let _ = eprintln!(&rt; "memory");
            }
            ExitCode::from(FAILED)
        }
    }
}
