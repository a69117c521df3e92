// The program: works the history files that it is given and prints what each step answered and, at the end, the read-out.
#![tactic(auto)]

use anyhow::anyhow;
use files::File;
use item::{DateMark, ImprintLine, Item};
use script::Kind;
use std::env;

mod files;
mod output;
mod rows;
mod steps;
mod working;

fn work_one(rt: &HostRuntime, file: File) -> anyhow::Result<()> {
    match file.script.kind {
        Kind::Mark => {
            let _ = working::work::<DateMark>(rt, file.script)?;
        }
        Kind::Line => {
            let _ = working::work::<ImprintLine>(rt, file.script)?;
        }
    }
    Ok(())
}

// Two files of one kind: each under its name, and then whether their read-outs are equal.
fn work_both<V: Item + PartialEq + Drop>(
    rt: &HostRuntime,
    one: File,
    other: File,
) -> anyhow::Result<()> {
    let File { name, script } = one;
    println!(rt; "== {name}")?;
    let rows = working::work::<V>(rt, script)?;
    let File { name, script } = other;
    println!(rt; "== {name}")?;
    let beside = working::work::<V>(rt, script)?;
    if rows::same_rows(&rows, &beside) {
        rt.println("read-outs equal")?;
    } else {
        rt.println("read-outs differ")?;
    }
    Ok(())
}

fn work_two(rt: &HostRuntime, one: File, other: File) -> anyhow::Result<()> {
    if one.script.kind != other.script.kind {
        let told = files::other_kind(rt.alloc(), other.name.as_str(), one.name.as_str())?;
        return program::refuse(rt, told.as_str());
    }
    match one.script.kind {
        Kind::Mark => work_both::<DateMark>(rt, one, other),
        Kind::Line => work_both::<ImprintLine>(rt, one, other),
    }
}

fn run(rt: &HostRuntime) -> anyhow::Result<()> {
    let mut args = env::args(rt)?;
    let _ = args.next();
    let (Some(name), other, None) = (args.next(), args.next(), args.next()) else {
        return Err(anyhow!("usage: houses FILE [FILE]"));
    };
    let one = files::read(rt, name)?;
    match other {
        None => work_one(rt, one),
        Some(name) => {
            let other = files::read(rt, name)?;
            work_two(rt, one, other)
        }
    }
}

fn main(rt: HostRuntime) -> anyhow::Result<()> {
    run(&rt)
}

#[cfg(test)]
mod tests;
