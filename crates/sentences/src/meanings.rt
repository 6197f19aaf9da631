// What a refusal means, in words.

use decode::DecodeFault;
use imports::LinkFault;
use loader::Refusal;
use validate::ValidFault;

/// What is wrong, in words, whatever the bytes are.
pub fn meaning(refusal: Refusal) -> &'static str {
    match refusal {
        Refusal::Memory => "out of memory",
        Refusal::Decode(fault) => of_decode(fault),
        Refusal::Validate(fault) => of_validate(fault),
        Refusal::Link(fault) => of_link(fault),
    }
}

fn of_decode(fault: DecodeFault) -> &'static str {
    match fault {
        DecodeFault::Magic => "the bytes don't begin with 00 61 73 6d",
        DecodeFault::Version => "the version is not 01 00 00 00",
        DecodeFault::End => "unexpected end of data",
        DecodeFault::Leb => "an integer is encoded in too many bytes or is out of range",
        DecodeFault::Order => "duplicate or out-of-order section",
        DecodeFault::Size => "size mismatch: the contents are shorter or longer than declared",
        DecodeFault::Kind => "invalid kind of section, type, import, export or limits",
        DecodeFault::Opcode => "unknown opcode",
        DecodeFault::Name => "a name is not valid UTF-8",
        DecodeFault::Counts => "the numbers of functions and bodies differ",
        DecodeFault::Profile => "unsupported type, instruction or import",
        DecodeFault::Limit => "a size or a count exceeds its limit",
        DecodeFault::Memory => "out of memory",
    }
}

fn of_validate(fault: ValidFault) -> &'static str {
    match fault {
        ValidFault::BadType =>
            "type mismatch in the operands of an instruction or the results of a body",
        ValidFault::Index => "index out of range",
        ValidFault::Label => "branch target out of range",
        ValidFault::Align => "the alignment is larger than the access",
        ValidFault::Mutability => "assignment to an immutable global",
        ValidFault::Result => "a function type has too many results",
        ValidFault::Export => "duplicate export name",
        ValidFault::Start => "the start function has parameters or results",
        ValidFault::Constant => "an initializer or an offset is not a single constant of its type",
        ValidFault::Height => "too many operands on the stack, or too many parameters and locals",
        ValidFault::Nesting => "blocks are nested too deeply",
        ValidFault::Memory => "out of memory",
    }
}

pub fn of_link(fault: LinkFault) -> &'static str {
    match fault {
        LinkFault::Module => "unknown module, expected \"uv\"",
        LinkFault::Name => "\"uv\" has no function of this name",
        LinkFault::BadType => "type mismatch",
        LinkFault::Kind => "the host calls this export as another type",
        LinkFault::Segments => "a segment does not fit the table or the memory",
    }
}
