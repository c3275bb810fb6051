//! Tests, and the machine and the disk in memory that they run on.

pub mod memory_disk;
pub mod memory_machine;
mod running;
mod saving;
