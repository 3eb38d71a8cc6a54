//! The program: `replay` replays lines of messages from standard input to standard output, `serve` is the notebook server,
//! and `run` runs notebooks.
#![tactic(auto)]

mod laws;
mod running;
mod serving;
mod telling;

use crate::running::{Runs, read_runs, run_all};
use crate::serving::{Unserved, read_port, serve_folder};
use crate::telling::{help_status, version_status};
use jk_replay::{ReplayFault, Side, ended_status, replay_status, usage_status};
use ob_language::Oberon;
use std::io::IsTerminal;
use std::process::ExitCode;
use std::{env, io};

/// What the arguments ask for.
#[derive(Debug, Drop)]
enum Command {
    Replay,
    /// The port, and the path of the folder.
    Serve(u16, String),
    Run(Runs),
    Help,
    Version,
    Wrong,
}

/// The command of the arguments of `serve`.
fn serve_command(port: &str, root: String) -> Command {
    match read_port(port) {
        Some(port) => Command::Serve(port, root),
        None => Command::Wrong,
    }
}

/// The command of one word.
fn word_command(word: &str) -> Command {
    if word == "replay" {
        Command::Replay
    } else if word == "--help" {
        Command::Help
    } else if word == "--version" {
        Command::Version
    } else {
        Command::Wrong
    }
}

/// The command of the arguments of `run`.
fn run_command(rt: &HostRuntime) -> io::Result<Command> {
    let mut arguments = env::args(rt)?;
    let _program = arguments.next();
    let _word = arguments.next();
    match read_runs(rt.alloc(), arguments)? {
        Some(runs) => Ok(Command::Run(runs)),
        None => Ok(Command::Wrong),
    }
}

/// The arguments after the program's name.
fn asked(rt: &HostRuntime) -> io::Result<Command> {
    let mut arguments = env::args(rt)?;
    let _program = arguments.next();
    let Some(word) = arguments.next() else {
        return Ok(Command::Wrong);
    };
    if word.as_str() == "run" {
        return run_command(rt);
    }
    let second = arguments.next();
    let third = arguments.next();
    let fourth = arguments.next();
    match (second, third, fourth) {
        (None, None, None) => Ok(word_command(word.as_str())),
        (Some(port), Some(root), None) => if word.as_str() == "serve" {
            Ok(serve_command(port.as_str(), root))
        } else {
            Ok(Command::Wrong)
        },
        _ => Ok(Command::Wrong),
    }
}

/// How the program ends that does not serve.
fn fault_of(unserved: Unserved) -> ReplayFault {
    match unserved {
        Unserved::Memory => ReplayFault::Memory,
        Unserved::Device => ReplayFault::Device(Side::Output),
    }
}

fn main(rt: HostRuntime) -> ExitCode {
    let mut errors = rt.stderr();
    let status = match asked(&rt) {
        Ok(Command::Replay) => {
            let mut reader = rt.stdin();
            let mut writer = rt.stdout();
            replay_status::<Oberon, _, _, _>(rt.alloc(), &mut reader, &mut writer, &mut errors)
        }
        Ok(Command::Serve(port, root)) => {
            let mut writer = rt.stdout();
            match serve_folder(rt, rt.alloc(), &mut writer, port, root.as_str()) {
                Ok(()) => 0,
                Err(unserved) => ended_status(Err(fault_of(unserved)), &mut errors),
            }
        }
        Ok(Command::Run(runs)) => {
            let mut lines = rt.reader();
            let shows = errors.is_terminal();
            run_all(rt, &runs, &mut lines, &mut errors, shows)
        }
        Ok(Command::Help) => help_status(&mut rt.stdout()),
        Ok(Command::Version) => version_status(&mut rt.stdout()),
        Ok(Command::Wrong) => usage_status(&mut errors),
        Err(_) => ended_status(Err(ReplayFault::Memory), &mut errors),
    };
    ExitCode::from(status)
}
