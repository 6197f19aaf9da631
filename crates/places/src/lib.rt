//! Where in the bytes of a module something stands: its sections, functions and operations, by their lengths alone, and the names of its
//! functions and operations. Nothing is refused here: where the bytes are broken, an answer is missing.
#![tactic(auto)]

mod index;
mod names;
mod operations;
mod place;
mod segments;
mod shown;
mod sizes;
mod spans;

pub use names::{function_name, is_object};
pub use operations::{Spot, is_in_locals, name_of, place_of_operation};
pub use place::{Part, Place};
pub use segments::first_newer;
pub use shown::Shown;
pub use sizes::{Sizes, sizes_of};
pub use spans::{
    CODE, CutShort, DATA, ELEMENTS, EXPORTS, FUNCTIONS, GLOBALS, IMPORTS, MEMORIES, OPENING,
    TABLES, TYPES, count_in, cut_short, function_of, is_in_count, part_with, place_of_function,
    place_of_section,
};
