//! Upgrades of certificates to the second version of their text.
use bound_report::InvalidKind;
use bound_run::Status;
use std::alloc::Global;
use std::process::Abort;
use whole_runs::Said::Text;
use whole_runs::{Device, GOOD, Row, check_all, check_made_writes, check_reads};

const FIRST: &[u8] =
    b"cache-bound-certificate 1\nobjective object\ncapacity 2\nrequests 6\nunit 1\n\
denominator 1\nform exact\nupper 2\nflow 2\nlower 2\nrecords\n0 1 1\n0 1 1\n1 0 0\n0 0 0\n0 0 0\n0 0 0\nend\n";

const SECOND: &[u8] =
    b"cache-bound-certificate 2\nobjective object\ncapacity 2\nrequests 6\nunit 1\n\
denominator 1\nform exact\nupper 2\nflow 2\nlower 2\nrecords\n1 1\n1 1\n1 0 0\n0 0 0\n0 0\n0 0\nend\n";

const UPGRADE: Row<'static> = Row {
    shows: "a price that is as the one before is left out",
    words: "upgrade c d",
    trace: b"",
    cert: FIRST,
    report: Text(b"upgraded requests 6 version 2\n"),
    made: SECOND,
    ..GOOD
};

const FIRST_UPGRADES: [Row<'static>; 3] = [
    UPGRADE,
    Row {
        shows: "records, and no end",
        cert: b"cache-bound-certificate 1\nobjective object\ncapacity 2\nrequests 6\nunit 1\n\
denominator 1\nform exact\nupper 2\nflow 2\nlower 2\nrecords\n0 1 1\n0 1 1\n1 0 0\n0 0 0\n0 0 0\n0 0 0\n",
        status: Status::Invalid {
            line: 18,
            kind: InvalidKind::Truncated,
        },
        report: Text(b"invalid line 18: truncated\n"),
        made: b"",
        ..UPGRADE
    },
    Row {
        shows: "the second version stays as it is",
        cert: SECOND,
        ..UPGRADE
    },
];

const SECOND_UPGRADES: [Row<'static>; 2] = [
    Row {
        shows: "no request, and a warm-up",
        cert: b"cache-bound-certificate 1\nobjective bytes\ncapacity 1\nrequests 0\nunit 1\n\
denominator 1\nform plain\nupper 0\nflow 0\nlower 0\nwarmup 5\nrecords\nend\n",
        report: Text(b"upgraded requests 0 version 2\n"),
        made: b"cache-bound-certificate 2\nobjective bytes\ncapacity 1\nrequests 0\nunit 1\n\
denominator 1\nform plain\nupper 0\nflow 0\nlower 0\nwarmup 5\nrecords\nend\n",
        ..UPGRADE
    },
    Row {
        shows: "no end",
        cert: b"cache-bound-certificate 1\nobjective bytes\ncapacity 1\nrequests 0\nunit 1\n\
denominator 1\nform plain\nupper 0\nflow 0\nlower 0\nrecords\n",
        status: Status::Invalid {
            line: 12,
            kind: InvalidKind::Truncated,
        },
        report: Text(b"invalid line 12: truncated\n"),
        made: b"",
        ..UPGRADE
    },
];

fn check_first_upgrades(rt: &impl Abort, alloc: Global) {
    check_all(alloc, &FIRST_UPGRADES).expect(rt, "a row");
}

fn check_second_upgrades(rt: &impl Abort, alloc: Global) {
    check_all(alloc, &SECOND_UPGRADES).expect(rt, "a row");
}

#[test]
fn upgrades_keep_what_is_certified(rt: HostRuntime) {
    check_first_upgrades(&rt, rt.alloc());
    check_second_upgrades(&rt, rt.alloc());
}

#[test]
fn a_failed_read_is_the_certificates_fault(rt: HostRuntime) {
    let failing = Row {
        status: Status::CertFault,
        report: Text(b"certificate fault\n"),
        made: b"",
        ..UPGRADE
    };
    check_reads(rt.alloc(), Device::Cert, FIRST.len() + 1, &failing).expect(&rt, "a row");
}

#[test]
fn a_failed_write_is_the_made_sinks_fault(rt: HostRuntime) {
    let failing = Row {
        status: Status::MadeFault,
        report: Text(b"made fault\n"),
        ..UPGRADE
    };
    check_made_writes(rt.alloc(), &failing).expect(&rt, "a row");
}
