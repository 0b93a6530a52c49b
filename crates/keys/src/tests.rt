// Names and codes, read and written.
use super::*;
use std::test::Fail;

#[test]
fn names_are_written_small(rt: HostRuntime) -> Result<(), Fail> {
    let name = Name::read(b"Logo-9")?;
    let mut buffer = [b'.'; 8];
    assert_eq!(rt; name.write(&mut buffer)?, 6);
    assert_eq!(rt; buffer, *b"logo-9..");
    Ok(())
}

#[test]
fn other_bytes_are_no_name(rt: HostRuntime) {
    assert_eq!(rt; Name::read(b"").map_err(Denial::number), Err(12));
    assert_eq!(rt; Name::read(b"a_b").map_err(Denial::number), Err(12));
    assert_eq!(rt;
        Name::read(b"abcdefghijklmnopq").map_err(Denial::number),
        Err(12)
    );
}

#[test]
fn codes_have_two_bytes(rt: HostRuntime) -> Result<(), Fail> {
    assert_eq!(rt; Code::read(&[1, 2])?.number, 258);
    assert_eq!(rt; Code::read(&[1]).map_err(Denial::number), Err(12));
    assert_eq!(rt; Code::read(&[1, 2, 3]).map_err(Denial::number), Err(12));
    Ok(())
}

#[test]
fn short_buffers_are_denied(rt: HostRuntime) -> Result<(), Fail> {
    let mut buffer = [0; 1];
    assert_eq!(rt;
        Name::read(b"ab")?
            .write(&mut buffer)
            .map_err(Denial::number),
        Err(15)
    );
    assert_eq!(rt;
        Code { number: 258 }
            .write(&mut buffer)
            .map_err(Denial::number),
        Err(15)
    );
    Ok(())
}
