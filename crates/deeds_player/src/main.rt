//! The program `deeds_player`: plays lists of deeds on engines that offer a counter, and prints what was written in each.
//!
//! `lines` says what a line of its input is, and `printing` what is printed. Its input has rows for what
//! `ft_orb::play_deeds` promises, each with a comment that says what it shows.
#![tactic(auto)]

mod deeds;
mod heard;
mod lines;
mod printing;
mod requests;

use lines::play_lines;
use std::hash::RandomState;
use std::io;
use std::process::ExitCode;
use trials::{exit_code, status_of};

/// Runs the program over its handles: the status is 1 where a line is none, or where memory ran out outside of a play.
fn run(rt: &HostRuntime) -> io::Result<u8> {
    let hasher = RandomState::new(rt)?;
    let (mut input, mut out, mut err) = (rt.stdin(), rt.stdout(), rt.stderr());
    let played = play_lines(rt.alloc(), hasher, &mut input, &mut out);
    Ok(status_of(played, "deeds_player <LINES", &mut err))
}

fn main(rt: HostRuntime) -> ExitCode {
    exit_code(&rt, run(&rt))
}
