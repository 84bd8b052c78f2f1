//! Why a request is refused.

ghost use Rattle.std.specs.Prelude.{◌≡◌};
ghost use Rattle.mk_core_text.specs.Faults.{is_out_of_memory, of_certificate, of_foot, of_infer, of_plan, of_read, of_verify};
ghost use Rattle.mk_core_text.specs.declared.fault.Fault.TheVariants.{Memory};

use mk_cert::CertFault;
use mk_cert_text::CertTextFault;
use mk_foot::FootFault;
use mk_infer::InferFault;
use mk_lines::Name;
use mk_read::ReadFault;
use mk_world::PlanFault;
use std::alloc::{AllocError, AllocFailed};
use thiserror::Error;

/// Why a request is refused: the first fault, in this order: of the makefile, the goals, the
/// footprints, the graph, the commands, and the plan or the certificate. Only `Memory` stands for
/// out of memory; a wrapped fault never does.
#[derive(Debug, Drop, Error)]
pub enum Fault {
    /// Faults 1 to 37: the makefile is refused.
    #[error(transparent)]
    Read(ReadFault),
    /// The goals are refused (27, 28, 44, 45), their graph is (41 to 43), or a command can't be
    /// expanded (11 to 17).
    #[error(transparent)]
    Infer(InferFault),
    /// Faults 51 to 58: the footprints are refused.
    #[error(transparent)]
    Foot(FootFault),
    /// The text of the plan is refused (69).
    #[error(transparent)]
    Plan(PlanFault),
    /// Faults 71 and 72: the text is no certificate.
    #[error(transparent)]
    Certificate(CertTextFault),
    /// Faults 73 to 76: the certificate isn't accepted.
    #[error(transparent)]
    Verify(CertFault),
    /// `FileReadFailed` (35): reading this file failed, which is no makefile.
    #[error("read failed: {0}")]
    FileReadFailed(Name),
    /// `NoFile` (38): this file, which is no makefile, doesn't exist.
    #[error("missing file: {0}")]
    NoFile(Name),
    /// Out of memory. It can come in place of any result.
    #[error("out of memory")]
    Memory,
}

impl Fault {
    /// Whether this fault, or the fault that it wraps, is out of memory.
    pub fn is_out_of_memory(&self) -> bool
        ensures { result ≡ is_out_of_memory self.now }
    {
        match self {
            Fault::Memory | Fault::Foot(FootFault::Memory) | Fault::Plan(PlanFault::Memory) => true,
            Fault::Certificate(CertTextFault::Memory) | Fault::Verify(CertFault::Memory) => true,
            Fault::Read(fault) => fault.is_out_of_memory(),
            Fault::Infer(fault) => fault.is_out_of_memory(),
            _ => false,
        }
    }
}

impl From<ReadFault> for Fault {
    ghost from_gives = { λ r e. e ≡ of_read r };

    fn from(fault: ReadFault) -> Fault {
        if fault.is_out_of_memory() {
            Fault::Memory
        } else {
            Fault::Read(fault)
        }
    }
}

impl From<InferFault> for Fault {
    ghost from_gives = { λ r e. e ≡ of_infer r };

    fn from(fault: InferFault) -> Fault {
        if fault.is_out_of_memory() {
            Fault::Memory
        } else {
            Fault::Infer(fault)
        }
    }
}

impl From<FootFault> for Fault {
    ghost from_gives = { λ r e. e ≡ of_foot r };

    fn from(fault: FootFault) -> Fault {
        match fault {
            FootFault::Memory => Fault::Memory,
            fault => Fault::Foot(fault),
        }
    }
}

impl From<PlanFault> for Fault {
    ghost from_gives = { λ r e. e ≡ of_plan r };

    fn from(fault: PlanFault) -> Fault {
        match fault {
            PlanFault::Memory => Fault::Memory,
            fault => Fault::Plan(fault),
        }
    }
}

impl From<CertTextFault> for Fault {
    ghost from_gives = { λ r e. e ≡ of_certificate r };

    fn from(fault: CertTextFault) -> Fault {
        match fault {
            CertTextFault::Memory => Fault::Memory,
            fault => Fault::Certificate(fault),
        }
    }
}

impl From<CertFault> for Fault {
    ghost from_gives = { λ r e. e ≡ of_verify r };

    fn from(fault: CertFault) -> Fault {
        match fault {
            CertFault::Memory => Fault::Memory,
            fault => Fault::Verify(fault),
        }
    }
}

impl From<AllocError> for Fault {
    ghost from_gives = { λ _ e. e ≡ Memory };

    fn from(_error: AllocError) -> Fault {
        Fault::Memory
    }
}

impl<T: Drop> From<AllocFailed<T>> for Fault {
    ghost from_gives = { λ _ e. e ≡ Memory };

    fn from(_error: AllocFailed<T>) -> Fault {
        Fault::Memory
    }
}
