//! Faults of policies and of requests.

use enumset::set_json::JsonFault;
use std::alloc::AllocError;
use std::{fmt, io};

/// Why a text is not a policy, or not a request.
#[derive(Debug, Drop)]
pub enum Fault {
    /// The policy could not be read from its file, or memory ran out.
    Io(io::Error),
    /// The policy is not JSON, or memory ran out.
    Json(serde_json::Error),
    /// The policy has no object of this name.
    NoObject(&'static str),
    /// This name is not that of a role.
    NoRole(String),
    /// The policy has no user of this name.
    NoUser(String),
    /// This name is not that of a right.
    NoRight(String),
    /// Which list is not a set of roles or of rights, whose it is, and why.
    List(&'static str, String, JsonFault),
}

impl From<AllocError> for Fault {
    ghost use Rattle.std.specs.Prelude.{◌≡◌};
    ghost use Rattle.std.specs.IoError.{error_kind};
    ghost use Rattle.std.specs.declared.io.Error.{Error};
    ghost use Rattle.std.specs.declared.io.ErrorKind.TheVariants.{OutOfMemory};
    ghost use Rattle.example_permissions.specs.declared.fault.Fault.TheVariants.{Io};

    ghost from_gives = { λ _ fault. (error : Error) × (fault ≡ Io error) × (error_kind error ≡ OutOfMemory) };

    fn from(error: AllocError) -> Fault {
        Fault::Io(error.into())
    }
}

impl fmt::Display for Fault {
    ghost use Rattle.example_permissions.specs.Texts.{fault_text};

    ghost output = { fault_text };

    fn fmt<W: fmt::Write>(&self, f: &mut fmt::Formatter<W>) -> fmt::Result {
        match self {
            Fault::Io(error) => write!(f, "{error}"),
            Fault::Json(error) => write!(f, "{error}"),
            Fault::NoObject(name) => write!(f, "no object `{name}`"),
            Fault::NoRole(name) => write!(f, "no role `{name}`"),
            Fault::NoUser(name) => write!(f, "no user `{name}`"),
            Fault::NoRight(name) => write!(f, "no right `{name}`"),
            Fault::List(list, name, fault) => write!(f, "{list} of {name}: {fault}"),
        }
    }
}
