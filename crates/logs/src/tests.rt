// Logs by hand, read to their ends or to their first fault.
use super::*;
use keys::{Code, Denial};
use std::test::Fail;

#[test]
fn a_page_is_read_to_its_end(rt: HostRuntime) -> Result<(), Fail> {
    let mut reader = PageReader::open::<Code>(&[1, b'C', 0, 3, b'F', 0, 7, 0, 3, b'L', 0, 7])?;
    assert_eq!(rt;
        reader.next::<Code>()?,
        Some(PageRecord::First(&[0, 7][..]))
    );
    assert_eq!(rt;
        reader.next::<Code>()?,
        Some(PageRecord::Request(Request::Lookup(&[0, 7][..])))
    );
    assert!(rt; reader.is_done());
    assert_eq!(rt; reader.passed(), 2);
    assert_eq!(rt; reader.next::<Code>()?, None);
    Ok(())
}

#[test]
fn a_first_key_after_a_request_is_denied(rt: HostRuntime) -> Result<(), Fail> {
    let mut reader = PageReader::open::<Code>(&[1, b'C', 0, 3, b'L', 0, 7, 0, 3, b'F', 0, 7])?;
    assert_eq!(rt; reader.next::<Code>().err().map(Denial::number), None);
    assert_eq!(rt; reader.next::<Code>().err().map(Denial::number), Some(12));
    assert_eq!(rt; reader.next::<Code>().err().map(Denial::number), Some(12));
    assert_eq!(rt; reader.passed(), 1);
    Ok(())
}

#[test]
fn a_cut_off_record_is_denied(rt: HostRuntime) -> Result<(), Fail> {
    let mut reader = PageReader::open::<Code>(&[1, b'C', 0, 4, b'Q', 0, 7])?;
    assert_eq!(rt; reader.next::<Code>().err().map(Denial::number), Some(11));
    let mut reader = PlanReader::open(&[1, 0])?;
    assert_eq!(rt; reader.next().err().map(Denial::number), Some(11));
    Ok(())
}

#[test]
fn headers_are_checked(rt: HostRuntime) {
    assert_eq!(rt;
        PageReader::open::<Code>(&[2, b'N'])
            .err()
            .map(Denial::number),
        Some(9)
    );
    assert_eq!(rt;
        PageReader::open::<Code>(&[1, b'N'])
            .err()
            .map(Denial::number),
        Some(10)
    );
    assert_eq!(rt; PlanReader::open(&[]).err().map(Denial::number), Some(9));
}

#[test]
fn a_plan_is_read_to_its_end(rt: HostRuntime) -> Result<(), Fail> {
    let mut reader = PlanReader::open(&[1, 0, 3, b'G', 1, 2, 0, 3, b'X', 0, 1])?;
    assert_eq!(rt; reader.next()?, Some(Move::Goal(258)));
    assert_eq!(rt; reader.next()?, Some(Move::Exchange(1)));
    assert_eq!(rt; reader.next()?, None);
    assert_eq!(rt; reader.passed(), 2);
    Ok(())
}
