//! The law of loops over any object that they share. Its function does nothing: its contract is the law.

ghost use Rattle.desk.specs.Laws.{IsAsAtDesk};

use phases::Shared;

/// Whatever a loop shares, between real threads too, and whatever others do to that: it does at a desk what it does there.
/// In every history of the loop from its opening each event is one over a desk as well: the same callback with the same
/// arguments, the same calls of the guest with the same answers, from the same state of the loop to the same. At the desk
/// workers start requests and others send between the loop's calls.
pub fn as_at_desk<B: Shared>()
    ensures { IsAsAtDesk B.calls }
{}
