// Laws over runs. Those that name no host are the meaning's own.

ghost use Rattle.reduction.specs.Laws.{RunsAreDetermined, CallsAreDetermined, AnswersAreDetermined};

use crate::host::Host;
pub use reduction::laws::{
    bounded_contexts_are_sound, callers_are_at_calls, one_ending, one_stop,
    reached_contexts_are_bounded, side_tables_tell_places, table_stays,
};

/// A law, with nothing to run: where the calls of a host are a function of what is seen of its state and of what is
/// asked, one start has one run at most: one list of the host's calls, one ending, one number of used fuel, one store and
/// one last sight of the host. So has a call from outside, and `invoke` then has one answer.
pub fn one_run<H: Host, V>()
    ensures runs { RunsAreDetermined V H.moves }
    ensures calls { CallsAreDetermined V H.moves }
    ensures answers { AnswersAreDetermined V H.moves }
{}
