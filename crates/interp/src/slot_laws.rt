// The laws of the slot machine.

ghost use Rattle.interp.specs.Inner.Slots.Laws.{MachineComes, MachineStops, MachineIsSteady, MachineBegins, MachineResumes, MachineLengthens, ViewIsProgram};

/// A law, with nothing to run: the slot machine does the reduction. Where it stands for contexts of a run and comes to a
/// state, the run comes to contexts for which it stands there, for as much fuel (`comes`); where it stops, the run is
/// over with that outcome, the host is called, or slots are missing (`stops`).
pub fn machine_does_the_reduction()
    ensures comes { MachineComes }
    ensures stops { MachineStops }
{}

/// A law, with nothing to run: where the slot machine stands for contexts of a run, it finds an operation wherever it
/// comes, with all that the operation needs.
pub fn represented_states_are_steady()
    ensures { MachineIsSteady }
{}

/// A law, with nothing to run: how a run of the slot machine begins, and how it goes on where it stopped. With the
/// arguments and zeros for the further locals in the lowest slots it stands for the contexts of a call from outside
/// (`begins`). Once the host has answered, with the answer in the arguments' place, it stands for the contexts that get
/// the answer (`asked`). With more slots, all zero, it stands for the same contexts (`longer`).
pub fn runs_begin_and_go_on()
    ensures begins { MachineBegins }
    ensures asked { MachineResumes }
    ensures longer { MachineLengthens }
{}

/// A law, with nothing to run: what the machine sees of a valid module and its side tables is the module's program.
pub fn view_is_the_program()
    ensures { ViewIsProgram }
{}
