//! Texts with the numbers that the rules give them.
use std::test::Fail;
use values_text::{ValuesEnd, read_values};

// Texts, each with its numbers.
const LISTS: [(&[u8], &[i64]); 9] = [
    (b"", &[]),
    (b" \t\r\n ", &[]),
    (b"7", &[7]),
    (b"1 2", &[1, 2]),
    (b"\r\n-0\t-007 \n\n0042\n", &[0, -7, 42]),
    (b"9223372036854775807", &[9223372036854775807]),
    (b"-9223372036854775808 1", &[i64::MIN, 1]),
    (b"00000000000000000000000000000008", &[8]),
    (b"-1\n-2\n-3", &[-1, -2, -3]),
];

// Texts that spell no list of numbers.
const OTHERS: [&[u8]; 16] = [
    b"+1",
    b"-",
    b"1 -",
    b"- 1",
    b"--1",
    b"1-2",
    b"1,2",
    b"1.5",
    b"0x10",
    b"9223372036854775808",
    b"-9223372036854775809",
    b"99999999999999999999999999999999999999",
    b"1\x0b2",
    b"1\x0c2",
    b"1\xc2\xa02",
    b"1 2\x00",
];

#[test]
fn lists(rt: HostRuntime) -> Result<(), Fail> {
    for (text, numbers) in &LISTS {
        let values = read_values(rt.alloc(), text)?;
        assert!(rt; values.as_slice() == *numbers);
    }
    Ok(())
}

#[test]
fn others(rt: HostRuntime) {
    for text in &OTHERS {
        assert!(rt; read_values(rt.alloc(), text).err() == Some(ValuesEnd::Shape));
    }
}
