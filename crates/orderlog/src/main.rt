// The program: works the history files that it is given and prints what each step answered and, at the end, the read-out.
#![tactic(auto)]

use anyhow::anyhow;
use script::{Call, Script};
use std::env;

mod log;
mod output;

// This build works the steps open, append and close; a file with any other is refused before its first step.
fn check_steps(rt: &HostRuntime, name: &str, script: &Script) -> anyhow::Result<()> {
    for step in script.steps.iter() {
        if !matches!(&step.call, Call::Open | Call::Append { .. } | Call::Close) {
            let line = step.line;
            let word = step.call.word();
            let told = format!(in rt.alloc();
                "{name}: line {line}: the step {word} is not worked by this build"
            )?;
            return program::refuse(rt, told.as_str());
        }
    }
    Ok(())
}

fn run(rt: &HostRuntime) -> anyhow::Result<()> {
    let mut args = env::args(rt)?;
    let _ = args.next();
    let (Some(name), None) = (args.next(), args.next()) else {
        return Err(anyhow!("usage: orderlog FILE"));
    };
    let script = program::read(rt, name.as_str())?;
    check_steps(rt, name.as_str(), &script)?;
    output::work(rt, &script)
}

fn main(rt: HostRuntime) -> anyhow::Result<()> {
    run(&rt)
}
