// The history files that the program is given, and what is told of two that do not go together.
use script::Script;
use std::alloc::{AllocError, Global};

#[derive(Drop)]
pub struct File {
    pub name: String,
    pub script: Script,
}

// What is told of the second of two files whose kinds differ.
pub(crate) fn other_kind(heap: Global, name: &str, first: &str) -> Result<String, AllocError> {
    format!(in heap; "{name}: its kind is not that of {first}")
}

pub(crate) fn read(rt: &HostRuntime, name: String) -> anyhow::Result<File> {
    let script = program::read(rt, name.as_str())?;
    Ok(File { name, script })
}
