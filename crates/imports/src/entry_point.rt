// The functions that the host calls by name.

ghost use Rattle.std.specs.Prelude.{◌≡◌, ◌↔◌, Some};
ghost use Rattle.imports.specs.Signatures.{type_of_signature};
ghost use Rattle.imports.specs.Uv.{name_of_entry, type_of_entry};

use crate::signature::CallType;
use syntax::types::ValType::I32;

/// A function that a guest may export for the host to call.
#[derive(Clone, Copy, Debug, PartialEq, Eq)]
pub enum EntryPoint {
    /// Runs once, as the loop begins.
    Main,
    /// Does the work of one request: operation.
    Work,
    /// Takes what came of a request: request, kind and code.
    AfterWork,
}

impl EntryPoint {
    /// All of them.
    pub const ALL: [EntryPoint; 3] = [EntryPoint::Main, EntryPoint::Work, EntryPoint::AfterWork];

    /// The name, in ASCII letters and `_`.
    pub fn name(self) -> &'static str
        ensures { result.now ≡ name_of_entry self }
    {
        match self {
            EntryPoint::Main => "uv_main",
            EntryPoint::Work => "uv_work",
            EntryPoint::AfterWork => "uv_after_work",
        }
    }

    /// The type.
    pub fn signature(self) -> CallType
        ensures { type_of_signature result ≡ type_of_entry self }
    {
        match self {
            EntryPoint::Main => CallType::new(&[], &[]),
            EntryPoint::Work => CallType::new(&[I32], &[I32]),
            EntryPoint::AfterWork => CallType::new(&[I32, I32, I32], &[]),
        }
    }

    /// The function of this name, where there is one.
    pub fn from_name(name: &[u8]) -> Option<EntryPoint>
        ensures { (entry : EntryPoint) → (result ≡ Some entry) ↔ (name_of_entry entry ≡ name.now) }
    {
        for entry in EntryPoint::ALL {
            if entry.name().as_bytes() == name {
                return Some(entry);
            }
        }
        None
    }
}
