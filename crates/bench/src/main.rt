// How long one append and one read take, on each storage: with 1 and with 64 sections, near empty and near full. Run by hand
// with the word `measure`; without it, as in the gate, it only says so.
#![tactic(auto)]

use std::env;

mod storages;

fn run(rt: &HostRuntime) -> anyhow::Result<()> {
    let mut args = env::args(rt)?;
    let _ = args.next();
    match args.next() {
        Some(word) if word.as_str() == "measure" => storages::measure_all(rt),
        _ => {
            rt.println("usage: bench measure")?;
            Ok(())
        }
    }
}

fn main(rt: HostRuntime) -> anyhow::Result<()> {
    run(&rt)
}
