// Why nothing comes of a script.

use files::IoFault;
use loader::Refusal;
use script::ScriptFault;
use sentences::{RefusalAccount, account_of};
use std::alloc::Global;

/// Why a script has no result.
#[derive(Drop)]
pub enum ScriptFailure {
    /// Memory or the output failed.
    Io(IoFault<'static>),
    /// The module of this number is rejected. `account` is None if it is longer than a module may be.
    Refused {
        module: usize,
        refusal: Refusal,
        account: Option<RefusalAccount>,
    },
    /// The text is not a script. `told` says where and why, if that is known and memory suffices.
    NoScript {
        fault: ScriptFault,
        told: Option<String>,
    },
}

impl ScriptFailure {
    /// The text is not a script.
    pub(crate) fn no_script(fault: ScriptFault, told: Option<String>) -> ScriptFailure {
        match fault {
            ScriptFault::Memory => ScriptFailure::Io(IoFault::Memory),
            _ => ScriptFailure::NoScript { fault, told },
        }
    }

    /// The module of this number, of these bytes, is rejected.
    pub(crate) fn refused(
        alloc: Global,
        module: usize,
        bytes: &[u8],
        refusal: Refusal,
    ) -> ScriptFailure {
        match refusal {
            Refusal::Memory => ScriptFailure::Io(IoFault::Memory),
            _ => ScriptFailure::Refused {
                module,
                refusal,
                account: account_of(refusal, alloc, bytes),
            },
        }
    }
}

impl<E> From<E> for ScriptFailure
where
    IoFault<'static>: From<E>,
{
    fn from(error: E) -> Self {
        ScriptFailure::Io(IoFault::from(error))
    }
}
