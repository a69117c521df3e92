// What the programs share: a history file, the storage that it names, the work buffer, and an item's bytes as they are printed.
#![tactic(auto)]

mod digits;
mod files;
mod making;

pub use digits::Digits;
pub use files::{read, refuse};
pub use making::{pages, slots, work_buffer};

#[cfg(test)]
mod tests;
