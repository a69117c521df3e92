// Reads history files, and makes what is told of one that is refused.
ghost use Rattle.std.specs.Result.{IsErr};

use anyhow::anyhow;
use script::{Failure, Script};
use std::alloc::{AllocError, Global};
use std::fs;
use std::io::Read;

// `-` is standard input.
fn read_bytes(rt: &HostRuntime, name: &str) -> anyhow::Result<Vec<u8>> {
    if name == "-" {
        let mut bytes = Vec::new(rt.alloc());
        rt.stdin().read_to_end(&mut bytes)?;
        return Ok(bytes);
    }
    Ok(fs::read(rt, name)?)
}

// Tells on standard error why nothing is worked; the error is the one with which the program ends.
pub fn refuse<T>(rt: &HostRuntime, told: &str) -> anyhow::Result<T>
    ensures { IsErr result }
{
    eprintln!(rt; "{told}")?;
    Err(anyhow!("nothing was worked"))
}

// What is told of a file that is no history.
pub(crate) fn no_history(heap: Global, name: &str, failure: Failure) -> Result<String, AllocError> {
    format!(in heap; "{name}: {failure}")
}

// The script of a file; what is wrong with it is told on standard error.
pub fn read(rt: &HostRuntime, name: &str) -> anyhow::Result<Script> {
    let bytes = match read_bytes(rt, name) {
        Ok(bytes) => bytes,
        Err(error) => {
            let told = format!(in rt.alloc(); "{name}: {error}")?;
            return refuse(rt, told.as_str());
        }
    };
    match script::parse(rt.alloc(), bytes.as_slice()) {
        Ok(script) => Ok(script),
        Err(failure) => {
            let told = no_history(rt.alloc(), name, failure)?;
            refuse(rt, told.as_str())
        }
    }
}
