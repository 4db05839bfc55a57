//! Certificates and files of them.

use og_cert_text::{
    Cert, CertFile, CertFileError, CertFileFault, Finish, Source, Term, write_certs,
};
use og_linear::Form;
use std::alloc::{AllocError, Global};
use std::process::Abort;
use std::test::Fail;

fn known(fact: u32) -> Term {
    Term {
        times: 1,
        source: Source::Known(fact),
    }
}

fn closed(alloc: Global, terms: &[Term]) -> Result<Cert, AllocError> {
    let finish = Finish::Close(Vec::from_slice(alloc, terms)?);
    Ok(Cert {
        steps: Vec::new(alloc),
        finish,
    })
}

// A certificate of this many branches, each in the first case of the one before.
fn nested(alloc: Global, count: u32) -> Result<Cert, AllocError> {
    let mut cert = closed(alloc, &[known(1)])?;
    for _ in 0..count {
        let second = Box::new(alloc, closed(alloc, &[known(1)])?)?;
        let finish = Finish::Branch(Form::constant(alloc, 0), Box::new(alloc, cert)?, second);
        cert = Cert {
            steps: Vec::new(alloc),
            finish,
        };
    }
    Ok(cert)
}

// One more than the greatest multiplier.
const MANY: Term = Term {
    times: 9_223_372_036_854_775_808,
    source: Source::Known(1),
};

#[test]
fn certificates_are_limited(rt: HostRuntime) -> Result<(), Fail> {
    assert!(rt; nested(rt.alloc(), 200)?.is_well_formed());
    assert!(rt; !nested(rt.alloc(), 201)?.is_well_formed());
    assert!(rt; !closed(rt.alloc(), &[])?.is_well_formed());
    for term in [known(0), known(1_000_000_000), MANY] {
        assert!(rt; !closed(rt.alloc(), &[term])?.is_well_formed());
    }
    Ok(())
}

fn expect_fault(rt: &impl Abort, answer: Result<(), CertFileError>, fault: CertFileFault) {
    assert_eq!(rt; answer, Err(CertFileError::Fault(fault)));
}

fn expect_limits(rt: &impl Abort, alloc: Global, file: &mut CertFile) -> Result<(), Fail> {
    for number in [0, 1_000_000_000] {
        let refused = file.add(number, closed(alloc, &[known(1)])?);
        expect_fault(rt, refused, CertFileFault::BadNumber);
    }
    let many = file.add(1, closed(alloc, &[MANY])?);
    expect_fault(rt, many, CertFileFault::BadNumber);
    let deep = file.add(0, nested(alloc, 201)?);
    expect_fault(rt, deep, CertFileFault::TooDeep);
    assert_eq!(rt; file.least_above(0), None);
    Ok(())
}

// A condition has one certificate.
fn expect_one(rt: &impl Abort, alloc: Global, file: &mut CertFile) -> Result<(), Fail> {
    file.add(1, nested(alloc, 200)?)?;
    let again = file.add(1, closed(alloc, &[known(1)])?);
    expect_fault(rt, again, CertFileFault::Twice);
    let deep = file.add(1, nested(alloc, 201)?);
    expect_fault(rt, deep, CertFileFault::Twice);
    expect_fault(rt, file.add_same(1, 1), CertFileFault::Twice);
    assert_eq!(rt; file.least_above(0), Some(1));
    assert_eq!(rt; file.least_above(1), None);
    Ok(())
}

fn expect_shared(rt: &impl Abort, alloc: Global, file: &mut CertFile) -> Result<(), Fail> {
    file.add(9, closed(alloc, &[known(3)])?)?;
    expect_fault(rt, file.add_same(2, 1), CertFileFault::NoSuchCertificate);
    assert!(rt; file.certificate(2).is_none());
    file.add(1, closed(alloc, &[known(1)])?)?;
    file.add_same(2, 1)?;
    file.add_same(7, 2)?;
    assert!(rt; file.certificate(7).is_some());
    assert_eq!(rt; file.least_above(2), Some(7));
    expect_fault(rt, file.add_same(0, 2), CertFileFault::BadNumber);
    let text = write_certs(alloc, file)?;
    let wanted =
        "og-cert 1\ncond 1\nclose 1*1\ncond 2\nclose 1*1\ncond 7\nclose 1*1\ncond 9\nclose 1*3\n";
    assert_eq!(rt; text.as_slice(), wanted.as_bytes());
    Ok(())
}

#[test]
fn files_are_limited(rt: HostRuntime) -> Result<(), Fail> {
    let mut file = CertFile::new(rt.alloc());
    expect_limits(&rt, rt.alloc(), &mut file)?;
    expect_one(&rt, rt.alloc(), &mut file)
}

#[test]
fn certificates_are_shared(rt: HostRuntime) -> Result<(), Fail> {
    let mut file = CertFile::new(rt.alloc());
    expect_shared(&rt, rt.alloc(), &mut file)
}

const FILE_FAULTS: &[(CertFileFault, u8, &str)] = &[
    (CertFileFault::BadNumber, 19, "BadNumber"),
    (CertFileFault::Twice, 21, "Twice"),
    (CertFileFault::TooDeep, 22, "TooDeep"),
    (CertFileFault::NoSuchCertificate, 26, "NoSuchCertificate"),
];

#[test]
fn faults_of_files(rt: HostRuntime) {
    for (fault, number, name) in FILE_FAULTS {
        assert!(rt; fault.number() == *number && fault.name() == *name);
    }
}
