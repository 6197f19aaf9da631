// A callback that is about to run.

ghost use Rattle.std.specs.Prelude.{◌≡◌, ◌≤◌, [], ◌∷◌, take, None};

use crate::did::BareDid;
use events::phase::EntryKind;
use std::marker::Model;
use syntax::types::Value;

/// What a callback is given: 0 to 3 values. `Values` has room for more, which each step would fill and copy.
#[derive(Drop)]
pub(crate) struct CallbackArgs {
    items: [Value; 3],
    count: usize,
}

impl Model for CallbackArgs {
    ghost use Rattle.std.specs.Prelude.{List, take, ◌≤◌};
    ghost use Rattle.syntax.specs.declared.types.Value.{Value as Item};

    ghost Value = { List Item };

    ghost view = { λ a. take a.count a.items };

    ghost invariant = { λ a. a.count ≤ 3 };
}

impl CallbackArgs {
    /// The first of these values.
    pub(crate) fn first(count: usize, items: [Value; 3]) -> CallbackArgs
        requires { count ≤ 3 }
        ensures { result ≡ take count items }
    {
        CallbackArgs { items, count }
    }

    /// The values, the first first.
    pub(crate) fn as_slice(&self) -> &[Value]
        ensures { result.now ≡ self.now }
    {
        &self.items[..self.count]
    }
}

/// A callback that is about to run: what its step is told of it, which function with which arguments, and the bytes that it may
/// read.
pub(crate) struct PreparedCallback {
    pub(crate) kind: EntryKind,
    pub(crate) number: u32,
    pub(crate) function: u32,
    pub(crate) args: CallbackArgs,
    pub(crate) reply: Option<Vec<u8>>,
}

/// What a step comes to before a callback of it runs.
pub(crate) enum Prepared {
    /// The step is over, and no callback runs.
    Did(BareDid),
    /// This callback runs.
    Runs(PreparedCallback),
}

impl Prepared {
    /// A callback that is given nothing.
    pub(crate) fn bare(kind: EntryKind, function: u32) -> Prepared
        ensures { result ≡ Prepared.Runs (record { kind = kind; number = 0; function = function; args = []; reply = None }) }
    {
        Prepared::Runs(PreparedCallback {
            kind,
            number: 0,
            function,
            args: CallbackArgs::first(0, [Value::I32(0); 3]),
            reply: None,
        })
    }

    /// The callback of a handle, which is given its number.
    pub(crate) fn of_handle(kind: EntryKind, handle: u32, function: u32) -> Prepared
        ensures { result ≡ Prepared.Runs (record { kind = kind; number = handle; function = function; args = Value.I32 handle ∷ []; reply = None }) }
    {
        Prepared::Runs(PreparedCallback {
            kind,
            number: handle,
            function,
            args: CallbackArgs::first(1, [Value::I32(handle), Value::I32(0), Value::I32(0)]),
            reply: None,
        })
    }

    /// An entry is skipped.
    pub(crate) fn skipped(kind: EntryKind, number: u32) -> Prepared
        ensures { result ≡ Prepared.Did (BareDid.Skipped kind number) }
    {
        Prepared::Did(BareDid::Skipped { kind, number })
    }
}
