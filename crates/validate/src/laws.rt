// Laws of the typing rules.

ghost use Rattle.std.specs.Prelude.{List, ◌++◌};
ghost use Rattle.syntax.specs.Code.{Code};
ghost use Rattle.syntax.specs.declared.types.ValType.{ValType};
ghost use Rattle.syntax.specs.declared.instruction.Instr.{Instr};
ghost use Rattle.valid.specs.Typing.{Context, InstrTyped, Typed};
ghost use Rattle.validate.specs.Sequences.{joined};

/// A law, with nothing to run: framing. What takes a stack of some types to one of others does so over any further
/// types beneath both (WebAssembly Core 1.0, 3.3).
pub fn typing_is_framed()
    ensures instructions { (c : Context) (i : Instr) (from to below : List ValType) → InstrTyped c i from to → InstrTyped c i (from ++ below) (to ++ below) }
    ensures sequences { (c : Context) (code : Code) (from to below : List ValType) → Typed c code from to → Typed c code (from ++ below) (to ++ below) }
{}

/// A law, with nothing to run: composition (WebAssembly Core 1.0, 3.3.6). A sequence that leaves the types `top`
/// over others, and after it one that takes `top` to `to`, are together a sequence that leaves `to` over those
/// others (`joins`). Where two sequences, one after another, are typed, each is: there are types that the first
/// leaves and the second takes (`parts`).
pub fn typed_sequences_compose()
    ensures joins { (c : Context) (first last : Code) (from top to below : List ValType) → Typed c first from (top ++ below) → Typed c last top to → Typed c (joined first last) from (to ++ below) }
    ensures parts { (c : Context) (first last : Code) (from to : List ValType) → Typed c (joined first last) from to → (between : List ValType) × Typed c first from between × Typed c last between to }
{}
