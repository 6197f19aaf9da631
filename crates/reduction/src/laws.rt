// Laws over runs.

ghost use Rattle.reduction.specs.Laws.{CallsAreBounded, OperandsAreBounded, ContextsAreBounded, LocalsAreBounded};
ghost use Rattle.reduction.specs.Laws.{StepsAreSound, BeginningsAreSound, CallsAreSound, AnswersAreSound};
ghost use Rattle.reduction.specs.Laws.{RunsEndOnce, CallsEndOnce, RunsStopOnce, StoppedRunsAreRuns, StopsAreInCalls, RunsKeepTable, CallsKeepTable};
ghost use Rattle.reduction.specs.Laws.{ReachedStandAtPlaces, StepsLeadOn, BrIsTold, BrIfIsTold, BrTableIsTold, BranchesCut, BlocksStayInCall};

/// A law, with nothing to run: how much can stand open at once. Whatever a call of a function of a valid module comes
/// to, where the host answers with values of its imports' types, at most `depth` calls are open, and for each of them
/// at most `MAX_HEIGHT` operands, `MAX_NESTING + 2` contexts (its frame, the label of its body and those of its blocks in
/// one another) and `MAX_LOCALS` locals, its parameters among them. These are the limits on the height, the nesting and
/// the locals of one body; the operands, contexts and locals of all calls are counted together.
pub fn reached_contexts_are_bounded()
    ensures calls { CallsAreBounded }
    ensures operands { OperandsAreBounded }
    ensures contexts { ContextsAreBounded }
    ensures locals { LocalsAreBounded }
{}

/// A law, with nothing to run: type soundness (WebAssembly Core 1.0, appendix, soundness), with the limits of bodies.
/// From typed contexts within the limits a rule always applies, and what it leads to is typed and within the limits
/// (`steps`); so is a call of a function of a valid module, from outside (`begins`) or over contexts that await its
/// results (`enters`), and so are those contexts once the host has answered (`answers`).
pub fn bounded_contexts_are_sound()
    ensures steps { StepsAreSound }
    ensures begins { BeginningsAreSound }
    ensures enters { CallsAreSound }
    ensures answers { AnswersAreSound }
{}

/// A law, with nothing to run: from one start, within one fuel and one limit of calls, a run in which the host answered
/// these calls has one ending, one number of used fuel and one store at most. So has a call from outside.
pub fn one_ending()
    ensures runs { RunsEndOnce }
    ensures calls { CallsEndOnce }
{}

/// A law, with nothing to run: where a run stops is determined. From one start a run in which the host answered these calls,
/// with this ending and this much used fuel, stops at one operation and within one list of calls (`stops`), and is a run of
/// the rules (`runs`).
pub fn one_stop()
    ensures stops { RunsStopOnce }
    ensures runs { StoppedRunsAreRuns }
{}

/// A law, with nothing to run: where a run stops within calls, each of them is at its call. Of two sites of a stop, one after
/// the other, the outer's operation is, in the body of its function, a `call` of the inner's function or a `call_indirect`
/// with that function's type.
pub fn callers_are_at_calls()
    ensures { StopsAreInCalls }
{}

/// A law, with nothing to run: a run leaves the table as it was, since no instruction writes it. So does a call from
/// outside.
pub fn table_stays()
    ensures runs { RunsKeepTable }
    ensures calls { CallsKeepTable }
{}

/// A law, with nothing to run: the side tables say where runs stand. Whatever a call of a function of a valid module
/// comes to, each of its open calls stands at an operation of its body (`reached`), and each step leads on to where that
/// operation and its entry in the table say, with no look at what is open (`steps`). What a branch keeps and what it
/// drops is what the entry says (`br`, `br_if`, `br_table`): of all operands, but those that it tests, the topmost are
/// kept over those beneath the call and so many of the call's (`cut`). A step within a block leaves its call and what
/// lies beneath it (`stays`).
pub fn side_tables_tell_places()
    ensures reached { ReachedStandAtPlaces }
    ensures steps { StepsLeadOn }
    ensures br { BrIsTold }
    ensures br_if { BrIfIsTold }
    ensures br_table { BrTableIsTold }
    ensures cut { BranchesCut }
    ensures stays { BlocksStayInCall }
{}
