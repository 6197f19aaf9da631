//! Valid WebAssembly modules (WebAssembly Core 1.0, chapter 3, and of Core 2.0 the sign extensions, block types by index
//! and several results): the typing rules, and the side tables that tell where the branches of a body lead.
//!
//! A `Valid` keeps in its type that its module is valid by the declarative rules. The crate `validate` checks modules, and makes it.
//!
//! Begin with `specs/Valid.antt` and `specs/Typing.antt`.
#![tactic(auto)]

mod function_type;
mod indexes;
mod kept_targets;
mod landing;
mod segments;
mod side_table;
mod valid;

pub use function_type::is_of_type;
pub use indexes::{type_at, type_index_of, type_of_function};
pub use kept_targets::{BranchTargets, Targets};
pub use landing::landed_labels;
pub use segments::{constant_of, offset_of};
pub use side_table::{FunctionSizes, Lead, MAX_TOLD_LABELS, SideTable, Target};
pub use valid::Valid;
