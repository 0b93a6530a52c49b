// Reports and fault lines by hand, in buffers of dots.
use super::*;
use bench::Ledger;
use keys::Denial;
use logs::{Fault, Log};
use std::process::Abort;
use std::test::Fail;

// The report is this text, and a dot is left behind it.
fn reports(rt: &impl Abort, ledger: Ledger, best: Option<u32>, text: &[u8]) -> Result<(), Fail> {
    let mut buffer = [b'.'; 128];
    assert_eq!(rt; write_report(ledger, best, &mut buffer)?, text.len());
    assert!(rt; buffer.starts_with(text));
    assert!(rt; text.len() < 128);
    assert_eq!(rt; buffer[text.len()], b'.');
    Ok(())
}

// A ledger after three requests.
fn small() -> Ledger {
    Ledger {
        requests: 3,
        house: 7,
        rival: 8,
        paid: 0,
        free: 3,
    }
}

#[test]
fn a_report_has_eight_lines(rt: HostRuntime) -> Result<(), Fail> {
    let text = b"requests 3\nhouse 7\nrival 8\npaid 0\nfree 3\ntwice 10\nfloor 5\nbest 7\n";
    reports(&rt, small(), Some(7), text)
}

#[test]
fn an_unknown_cost_is_none(rt: HostRuntime) -> Result<(), Fail> {
    let text = b"requests 3\nhouse 7\nrival 8\npaid 0\nfree 3\ntwice 10\nfloor 5\nbest none\n";
    reports(&rt, small(), None, text)
}

#[test]
fn the_largest_numbers_fit(rt: HostRuntime) -> Result<(), Fail> {
    let ledger = Ledger {
        requests: 1_000_000,
        house: 256_000_000,
        rival: 256_000_000,
        paid: 1_000_000,
        free: 0,
    };
    let text = b"requests 1000000\nhouse 256000000\nrival 256000000\npaid 1000000\nfree 0\n\
        twice 512000000\nfloor 128500000\nbest 4294967295\n";
    reports(&rt, ledger, Some(u32::MAX), text)
}

#[test]
fn faults_have_one_line(rt: HostRuntime) -> Result<(), Fail> {
    let mut buffer = [b'.'; 128];
    let mut fault = Fault {
        denial: Denial::Absent,
        log: Log::Page,
        at: 4,
    };
    assert_eq!(rt; write_fault(fault, &mut buffer)?, 15);
    assert!(rt; buffer.starts_with(b"fault 6 page 4\n."));
    fault.log = Log::Plan;
    fault.at = usize::MAX;
    assert_eq!(rt; write_fault(fault, &mut buffer)?, 34);
    assert!(rt; buffer.starts_with(b"fault 6 plan 18446744073709551615\n."));
    Ok(())
}

#[test]
fn buffers_below_128_bytes_are_denied(rt: HostRuntime) {
    let fault = Fault {
        denial: Denial::Absent,
        log: Log::Page,
        at: 4,
    };
    let mut buffer = [b'.'; 127];
    assert_eq!(rt;
        write_report(small(), None, &mut buffer).map_err(Denial::number),
        Err(15)
    );
    assert_eq!(rt;
        write_fault(fault, &mut buffer).map_err(Denial::number),
        Err(15)
    );
    assert_eq!(rt; buffer, [b'.'; 127]);
}
