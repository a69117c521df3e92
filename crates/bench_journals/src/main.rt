// How long appends, syncs, gets and whole replays of a journal take, with few and with many items. Run by hand with the word
// `measure`; without it, as in the gate, it only says so.
#![tactic(auto)]

use std::env;

mod journals;

fn run(rt: &HostRuntime) -> anyhow::Result<()> {
    let mut args = env::args(rt)?;
    let _ = args.next();
    match args.next() {
        Some(word) if word.as_str() == "measure" => journals::measure_all(rt),
        _ => {
            rt.println("usage: bench_journals measure")?;
            Ok(())
        }
    }
}

fn main(rt: HostRuntime) -> anyhow::Result<()> {
    run(&rt)
}
