//! The certificates that are open round the line that is read.

ghost use Rattle.std.specs.Prelude.{◌<◌, length, IfOk, OnErr};
ghost use Rattle.og_cert_read.specs.Levels.{IsPut, IsSettled, IsTakenIn, IsTakenInLast};

use og_cert_text::{Cert, CertStep, Finish};
use og_linear::Form;
use std::alloc::{AllocError, Global};

/// A branch or a split that is open, with the part of it that is read.
#[derive(Drop)]
pub(crate) enum Fork {
    /// The first certificate of the branch is read.
    First(Form),
    /// The second is read, after this first one.
    Second(Form, Cert),
    /// A certificate of the split of this fact is read, after these, and this many are wanted after
    /// it.
    Part(u32, u32, Vec<Cert>),
}

/// An open certificate: its steps, and the branch or split after them.
#[derive(Drop)]
pub(crate) struct Level {
    pub(crate) steps: Vec<CertStep>,
    pub(crate) fork: Fork,
}

/// What becomes of a level when a certificate within it is complete.
#[derive(Drop)]
pub(crate) enum Put {
    /// The level's certificate is complete too.
    Whole(Cert),
    /// The level stays open.
    Open(Level),
}

// Puts a complete certificate into the level round it.
fn put_into(alloc: Global, level: Level, cert: Cert) -> Result<Put, AllocError>
    ensures { IfOk result (λ p. IsPut level cert p) }
{
    let Level { steps, fork } = level;
    match fork {
        Fork::First(form) => Ok(Put::Open(Level {
            steps,
            fork: Fork::Second(form, cert),
        })),
        Fork::Second(form, first) => {
            let finish = Finish::Branch(form, Box::new(alloc, first)?, Box::new(alloc, cert)?);
            Ok(Put::Whole(Cert { steps, finish }))
        }
        Fork::Part(fact, wanted, mut certs) => {
            certs.push(cert)?;
            if wanted == 0 {
                certs.shrink_to_fit();
                let finish = Finish::Split(fact, certs);
                return Ok(Put::Whole(Cert { steps, finish }));
            }
            Ok(Put::Open(Level {
                steps,
                fork: Fork::Part(fact, wanted - 1, certs),
            }))
        }
    }
}

// Puts a complete certificate into a split that wants more after it, in place. Gives it back where
// the level is no such split.
fn take_in(level: &mut Level, cert: Cert) -> Result<Option<Cert>, AllocError>
    ensures { IfOk result (λ r. IsTakenIn level.old cert level.new r) }
{
    if let Fork::Part(_, wanted, certs) = &mut level.fork {
        if *wanted > 0 {
            certs.push(cert)?;
            *wanted -= 1;
            return Ok(None);
        }
    }
    Ok(Some(cert))
}

// The same for the innermost level. Takes no memory where there are no levels.
fn take_in_last(levels: &mut Vec<Level>, cert: Cert) -> Result<Option<Cert>, AllocError>
    ensures taken { IfOk result (λ r. IsTakenInLast levels.old.items cert levels.new.items r) }
    ensures memory { OnErr result (0 < length levels.old.items) }
{
    let count = levels.len();
    if count == 0 {
        return Ok(Some(cert));
    }
    let last = &mut levels[count - 1];
    take_in(last, cert)
}

/// Puts a complete certificate into the levels round it, the innermost last, and each certificate
/// that is complete by that too. Gives the outermost certificate, if that is complete. Takes no
/// memory where there are no levels.
pub(crate) fn settle(
    alloc: Global,
    levels: &mut Vec<Level>,
    cert: Cert,
) -> Result<Option<Cert>, AllocError>
    ensures settled { IfOk result (λ r. IsSettled levels.old.items cert levels.new.items r) }
    ensures memory { OnErr result (0 < length levels.old.items) }
{
    let Some(rest) = take_in_last(levels, cert)? else {
        return Ok(None);
    };
    let mut cert = rest;
    while let Some(level) = levels.pop() {
        match put_into(alloc, level, cert)? {
            Put::Whole(whole) => cert = whole,
            Put::Open(level) => {
                levels.push(level)?;
                return Ok(None);
            }
        }
    }
    Ok(Some(cert))
}
