//! Examples of `n2k_encode_run`.
use n2k_encode_run::{Encoding, run_encode};
use n2k_join::Counts;
use n2k_run::{MemorySink, StdSource};
use n2k_table_tests::samples::sample as sample_table;
use std::test::Fail;

// front page, run_encode
#[test]
fn front_page(rt: HostRuntime) -> Result<(), Fail> {
    let alloc = rt.alloc();
    let table = sample_table(alloc)?;
    let mut log = StdSource::new("{\"pgn\":127251,\"fields\":{\"SID\":1}}\n{}\n".as_bytes());
    let mut out = MemorySink::new(alloc, 4096, 0);
    let mut err = MemorySink::new(alloc, 4096, 0);
    let mut counts = Counts::NONE;
    run_encode(
        alloc,
        &table,
        false,
        &mut counts,
        &mut log,
        &mut out,
        &mut err,
    )?;
    let line = "1970-01-01T00:00:00.000Z,6,127251,0,255,8,01,ff,ff,ff,7f,ff,ff,ff\n";
    assert_eq!(rt; out.bytes(), line.as_bytes());
    assert_eq!(rt; err.bytes(), "line 2 bad B14 member\n".as_bytes());
    Ok(())
}

// Encoding::new, Encoding::take, Encoding::counts
#[test]
fn encoding(rt: HostRuntime) -> Result<(), Fail> {
    let alloc = rt.alloc();
    let table = sample_table(alloc)?;
    let mut out = MemorySink::new(alloc, 4096, 0);
    let mut err = MemorySink::new(alloc, 4096, 0);
    let mut encoding = Encoding::new(alloc, false);

    let monday = "{\"pgn\":127251,\"fields\":{\"SID\":1}}\n".as_bytes();
    encoding.take(alloc, &table, monday, &mut out, &mut err)?;
    encoding.take(alloc, &table, "{}".as_bytes(), &mut out, &mut err)?;
    let line = "1970-01-01T00:00:00.000Z,6,127251,0,255,8,01,ff,ff,ff,7f,ff,ff,ff\n";
    assert_eq!(rt; out.bytes(), line.as_bytes());
    assert_eq!(rt; err.bytes(), "line 2 bad B14 member\n".as_bytes());

    let counts = encoding.counts();
    assert_eq!(rt; (counts.lines, counts.messages, counts.bad), (2, 1, 1));
    Ok(())
}
