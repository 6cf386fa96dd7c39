//! A journal file of which a service is made.
ghost use Rattle.std.specs.Prelude.{IfOk};
ghost use Rattle.tq_shell.specs.Rehearsal.{IsOpened};

use crate::audit_finding::AuditFinding;
use crate::upgrading::found_in;
use std::alloc::{AllocError, Global};
use tq_core::Service;
use tq_merge::{Fault, explain};
use tq_shape::Memory;

/// What is made of a journal file.
#[derive(Drop)]
pub(crate) enum Opened {
    /// The service that has its journals, which one sequential run explains.
    Ready { service: Service },
    /// No service: what an audit finds, which is no order of the journals.
    Refused { finding: AuditFinding },
}

/// The service of the journals that these bytes are a file of, if one sequential run explains them.
pub(crate) fn open_service(alloc: Global, bytes: Vec<u8>) -> Result<Opened, Memory>
    ensures { IfOk result (IsOpened bytes.items) }
{
    let found = found_in(alloc, bytes.as_slice())?;
    drop(bytes);
    let Some(journals) = found else {
        return Ok(Opened::Refused {
            finding: AuditFinding::Unreadable,
        });
    };
    match explain(alloc, &journals) {
        Ok(_order) => {
            let service = Service::resume(alloc, journals)?;
            Ok(Opened::Ready { service })
        }
        Err(Fault::Memory) => Err(AllocError),
        Err(Fault::Wrong { part, number }) => Ok(Opened::Refused {
            finding: AuditFinding::Wrong { part, number },
        }),
        Err(Fault::Stuck { placed }) => Ok(Opened::Refused {
            finding: AuditFinding::Stuck { placed },
        }),
    }
}
