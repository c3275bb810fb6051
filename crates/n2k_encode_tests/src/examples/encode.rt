//! Examples of `n2k_encode`.
use json::Scratch;
use n2k_encode::{EncodeError, Refusal, encode_line};
use n2k_table_tests::samples::sample as sample_table;
use std::test::Fail;

// front page
#[test]
fn front_page(rt: HostRuntime) -> Result<(), Fail> {
    let alloc = rt.alloc();
    let table = sample_table(alloc)?;
    let mut scratch = Scratch::new(alloc);
    let line = "{\"pgn\":127251,\"src\":36,\"fields\":{\"SID\":125,\"Rate\":0.00509634375}}";
    let packet = encode_line(alloc, &table, false, line.as_bytes(), &mut scratch)?;
    let data = [125, 0x0b, 0x7d, 2, 0, 255, 255, 255];
    assert_eq!(rt; packet.data(), data.as_slice());
    Ok(())
}

// encode_line, Refusal::number, Refusal::name
#[test]
fn refusals(rt: HostRuntime) -> Result<(), Fail> {
    let alloc = rt.alloc();
    let table = sample_table(alloc)?;
    let mut scratch = Scratch::new(alloc);
    let line = "{\"pgn\":129026,\"fields\":{\"COG\":0.00005}}";
    let refused = encode_line(alloc, &table, false, line.as_bytes(), &mut scratch);
    assert!(rt; matches!(refused, Err(EncodeError::Refused(Refusal::Value("COG")))));

    assert_eq!(rt; Refusal::Value("COG").number(), 17);

    assert_eq!(rt; Refusal::Value("COG").name(), "COG");
    assert_eq!(rt; Refusal::Size.name(), "");
    Ok(())
}
