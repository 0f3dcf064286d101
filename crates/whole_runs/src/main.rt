//! Whole runs of the commands over a room in memory, by scripts of one step a line: what each run tells, answers and leaves is
//! printed, and compared with what has to come.
#![tactic(auto)]

use desk::Desk;
use std::process::ExitCode;
use std::sync::Wait;
use std::thread::Threads;
use std::{fs, io};
use step::Step;

mod damage;
mod desk;
mod failing;
mod room;
mod shown;
mod step;
mod turns;

/// The script of the whole runs.
const WHOLE_RUNS: &str = "script.txt";

/// The script of the worked rows, whose exports, lines and reports another program made from the rules.
const WORKED_ROWS: &str = "worked_rows.txt";

fn main(rt: HostRuntime) -> ExitCode {
    match play_all(&rt, &rt) {
        Ok(()) => ExitCode::SUCCESS,
        Err(_) => ExitCode::FAILURE,
    }
}

fn play_all<H: Threads + Wait + Sync>(rt: &HostRuntime, threads: &H) -> io::Result<()> {
    play(rt, threads, WHOLE_RUNS)?;
    play(rt, threads, WORKED_ROWS)
}

/// Takes each step of a script. `threads` starts the loaders.
fn play<H: Threads + Wait + Sync>(rt: &HostRuntime, threads: &H, script: &str) -> io::Result<()> {
    let script = fs::read_to_string(rt, script)?;
    let mut desk = Desk::new(rt.alloc());
    for line in script.lines() {
        desk = desk.take(rt, threads, line)?;
    }
    Ok(())
}
