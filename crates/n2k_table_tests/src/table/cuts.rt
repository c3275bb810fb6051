//! The sample cut after each of its bytes.
use crate::samples::{SAMPLE, read};
use n2k_table::TableFault;
use std::alloc::Global;
use std::process::Abort;
use std::test::Fail;

// Whether a prefix of the sample is a complete table. It is at the end of the first line, of the lookup's last key and
// of each definition's last key, and at the empty lines after these.
fn is_finished(prefix: &str) -> bool {
    let text = prefix.trim_end_matches('\n');
    text.ends_with("format = 1") || text.ends_with("[2, \"Error\"]]") || text.ends_with("\n]")
}

// Any other prefix is not TOML, has no format yet, or lacks a key.
fn cut_reads(alloc: Global, prefix: &str) -> bool {
    match read(alloc, prefix) {
        Ok(_) => is_finished(prefix),
        Err(TableFault::NotToml | TableFault::Format | TableFault::Key) => !is_finished(prefix),
        Err(_) => false,
    }
}

#[test]
fn cut_after_each_byte(rt: HostRuntime) -> Result<(), Fail> {
    let mut reading = 0u32;
    for end in 0..=SAMPLE.len() {
        let prefix = SAMPLE.get(..end).ok_or("a front")?;
        assert!(rt; cut_reads(rt.alloc(), prefix), "{end}");
        if is_finished(prefix) {
            reading = reading.saturating_add(1);
        }
    }
    // Three prefixes each after the first line, the lookup and two definitions, and two after the last definition.
    assert_eq!(rt; reading, 14);
    Ok(())
}
