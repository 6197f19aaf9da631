// Texts cut short, wrong or too large, and what is reported of them.

use crate::rows::{RowTeller, check_rows, shows};
use decode::{DecodeFault, decode};
use std::alloc::{AllocError, Global};
use std::process::Abort;
use std::test::Fail;
use syntax::contents::ExternKind;
use syntax::export::Export;
use syntax::module::Module;
use test_fixtures::{bytes_of, joined, module_of};

/// A function `f` that gives 7.
const CONSTANT: &str = "0061736d010000000105016000017f0302010007050101660000\
     0a0601040041070b";

/// That module up to its code section.
const BEFORE_CODE: &str = "0061736d010000000105016000017f0302010007050101660000";

/// That module up to its export section.
const BEFORE_EXPORTS: &str = "0061736d010000000105016000017f03020100";

/// The magic number and the version.
const OPENING: &str = "0061736d01000000";

/// `uv_main` starts a timer of 50, whose callback emits the moment.
const TIMER: &str = "0061736d01000000\
     011d066000017e6000017f60047f7f7e7e017f60017e017f60017f00600000\
     023504027576036e6f7700000275760a74696d65725f696e697400010275760b74696d65725f7374617274000202757604656d69740003\
     0303020405\
     040401700001\
     070b010775765f6d61696e0005\
     0907010041000b0104\
     0a17020700100010031a0b0d00100141004232420010021a0b";

/// Whole texts, and what is reported of each.
const TEXTS: &str = "
    00617e = Magic
    0061736d01 = End
    0061736e01000000 = Magic
    0061736d02000000 = Version
    0061736d01000000 = accepted
    # of 1,048,576 bytes, and of one more
    0061736d01000000 00f4ff3f 1048564*00 = accepted
    1048577*00 = Limit";

/// Sections after the opening: ids, sizes and names.
const SECTIONS: &str = "
    0c = Kind
    0105016000017f01 = Order
    0105016000017f0105016000017f = Order
    03010001 = Order
    05 = End
    01ffffffff0f = End
    01868080808000 = Leb
    01ffffffff1f = Leb
    0106016000017f00 = Size
    01020160 = End
    018500016000017f = accepted
    00020178 = accepted
    0000 = End
    000201ff = Name
    # counts over their limit, or over the bytes that are left
    0105ffffffff0f = Limit
    01028108 = Limit
    01028008 = End
    020141 = Limit
    020140 = End
    03028120 = Limit
    03028020 = End
    040102 = Limit
    050102 = Limit
    06028002 = End
    06028102 = Limit
    07028008 = End
    07028108 = Limit
    0a028120 = Limit
    01050160800200 = End
    01050160810200 = Limit
    0902ff7f = End
    # 256 parameters, 256 globals and 1,024 exports, and one more of each
    018502 01 60 8002 256*7f 00 = accepted
    018602 01 60 8102 257*7f 00 = Limit
    06820a 8002 256*7f0041000b = accepted
    06870a 8102 257*7f0041000b = Limit
    078218 8008 1024*000300 = accepted
    078518 8108 1025*000300 = Limit
    # what the sections hold
    0105016000017d = Profile
    0105016000017b = Kind
    0106016000027f7f = accepted
    010401610000 = Kind
    02080102757601660000 = accepted
    02080102757601660170 = Profile
    02080102757601660200 = Profile
    0208010275760166037f = Profile
    02080102757601660400 = Kind
    0404016f0001 = Kind
    04050170008020 = accepted
    04050170008120 = Limit
    0503010200 = Kind
    0503010040 = accepted
    0503010041 = Limit
    050401010201 = Limit
    0506010100808004 = accepted
    0506010100818004 = Limit
    0606017f0041000b = accepted
    0606017f0241000b = Kind
    0606017c0041000b = Profile
    080100 = accepted
    08020000 = Size
    0907010041000b0104 = accepted
    0b07010041000b01ff = accepted
    # of two faults that of the section in front
    040401710001 0503010041 = Kind
    07050101660400 08020000 = Kind
    0906010041000b01 0a05010300ff0b = End";

/// Code sections after the rest of a module.
const CODE: &str = "
    # instructions and block types
    0a050103008b0b = Profile
    0a05010300ff0b = Opcode
    0a09010700c0c1c2c3c40b = accepted
    0a080106000240050b0b = Opcode
    0a09010700044005050b0b = Opcode
    0a090107000440050b0b0b = Size
    0a0801060002ff7f0b0b = Kind
    0a0701050002050b0b = accepted
    0a0b0109000285808080000b0b = accepted
    0a0c010a00028080808080000b0b = Leb
    0a0b01090002ffffffff1f0b0b = Leb
    0a07010500027d0b0b = Profile
    0a070105001100010b = Kind
    0a060104003f010b = Kind
    0a0601040040010b = Kind
    # labels, sizes, locals, and the number of bodies
    0a070105000e81200b = Limit
    0a070105000e80200b = End
    0a050103004107 = End
    0a050103000b0b = Size
    0a050104000b0b = End
    0a0701050180027f0b = accepted
    0a0701050181027f0b = Limit
    0a09010702c8017f387e0b = accepted
    0a09010702c8017f397e0b = Limit
    0a0a010801ffffffff0f7f0b = Limit
    0a0601040281027f = Limit
    0a070202000b02000b = Counts
    0a0100 = Counts";

/// What follows a whole module.
const BEHIND: &str = "
    00020178 = accepted
    0000 = End";

/// Sections between the functions and the code of a module.
const EXPORTS: &str = "
    07050101ff0000 = Name
    07050101660400 = Kind";

/// The fault, or none.
fn told(alloc: Global, bytes: Vec<u8>) -> Option<DecodeFault> {
    decode(alloc, bytes).err()
}

/// A module, and what is reported of its prefixes.
#[derive(Clone, Copy)]
struct Fronts {
    module: &'static str,
    /// How long the fronts are that are modules, the whole one last.
    accepted: &'static [usize],
    /// How long the fronts are in which functions have no bodies.
    counted: &'static [usize],
}

const FRONTS_OF_CONSTANT: Fronts = Fronts {
    module: CONSTANT,
    accepted: &[8, 15, 34],
    counted: &[19, 26],
};

const FRONTS_OF_TIMER: Fronts = Fronts {
    module: TIMER,
    accepted: &[8, 39, 94, 152],
    counted: &[99, 105, 118, 127],
};

impl Fronts {
    fn allow(&self, length: usize, fault: Option<DecodeFault>) -> bool {
        if length < 8 {
            return fault == Some(DecodeFault::End);
        }
        if self.counted.contains(&length) {
            return fault == Some(DecodeFault::Counts);
        }
        fault.is_none() == self.accepted.contains(&length) && fault != Some(DecodeFault::Counts)
    }
}

fn allows_each(
    rt: &impl Abort,
    alloc: Global,
    fronts: &Fronts,
    text: &[u8],
) -> Result<(), AllocError> {
    shows(rt, fronts.accepted.last().copied(), Some(text.len()));
    for length in 0..=text.len() {
        let fault = told(alloc, text[..length].to_vec(alloc)?);
        shows(rt, (length, fronts.allow(length, fault)), (length, true));
    }
    Ok(())
}

fn check_fronts(rt: &impl Abort, alloc: Global, fronts: &Fronts) -> Result<(), Fail> {
    let text = bytes_of(alloc, fronts.module)?;
    Ok(allows_each(rt, alloc, fronts, text.as_slice())?)
}

#[test]
fn cut_at_each_length(rt: HostRuntime) -> Result<(), Fail> {
    check_fronts(&rt, rt.alloc(), &FRONTS_OF_CONSTANT)?;
    check_fronts(&rt, rt.alloc(), &FRONTS_OF_TIMER)
}

fn word_of(alloc: Global, fault: Option<DecodeFault>) -> Result<String, Fail> {
    match fault {
        None => Ok(String::from_str(alloc, "accepted")?),
        Some(fault) => Ok(format!(in alloc; "{fault}")?),
    }
}

/// Tells of a text, which comes after this front, what is reported of both.
#[derive(Drop)]
struct After(&'static str);

impl RowTeller for After {
    fn tell(&self, alloc: Global, text: &str) -> Result<String, Fail> {
        let bytes = joined(alloc, self.0, text)?;
        word_of(alloc, told(alloc, bytes))
    }
}

/// Fronts, and rows of texts that come after each.
const ROWS: [(&str, &str); 5] = [
    ("", TEXTS),
    (OPENING, SECTIONS),
    (BEFORE_CODE, CODE),
    (BEFORE_EXPORTS, EXPORTS),
    (CONSTANT, BEHIND),
];

#[test]
fn told_of_rows(rt: HostRuntime) -> Result<(), Fail> {
    for &(front, rows) in &ROWS {
        check_rows(&rt, rt.alloc(), rows, &After(front))?;
    }
    Ok(())
}

/// What is reported of an opcode that is no instruction of the profile.
fn refused_opcode(opcode: u8) -> Option<DecodeFault> {
    match opcode {
        0x00..=0x04 | 0x0b..=0x11 | 0x1a | 0x1b | 0x20..=0x24 => None,
        0x28 | 0x29 | 0x2c..=0x37 | 0x3a..=0x42 => None,
        0x45..=0x5a | 0x67..=0x8a | 0xa7 | 0xac | 0xad | 0xc0..=0xc4 => None,
        0x2a | 0x2b | 0x38 | 0x39 | 0x43 | 0x44 => Some(DecodeFault::Profile),
        0x5b..=0x66 | 0x8b..=0xa6 | 0xa8..=0xab | 0xae..=0xbf => Some(DecodeFault::Profile),
        _ => Some(DecodeFault::Opcode),
    }
}

/// A module whose body has this opcode.
fn with_opcode(alloc: Global, opcode: u8) -> Result<Vec<u8>, Fail> {
    let mut bytes = joined(alloc, BEFORE_CODE, "0a05010300")?;
    bytes.extend_from_slice(&[opcode, 0x0b])?;
    Ok(bytes)
}

#[test]
fn told_of_opcodes(rt: HostRuntime) -> Result<(), Fail> {
    for opcode in 0..=255 {
        let Some(want) = refused_opcode(opcode) else {
            continue;
        };
        let bytes = with_opcode(rt.alloc(), opcode)?;
        shows(&rt, (opcode, told(rt.alloc(), bytes)), (opcode, Some(want)));
    }
    Ok(())
}

fn has_exports(rt: &impl Abort, module: &Module) {
    let first = Export {
        kind: ExternKind::Func,
        index: 0,
    };
    let global = Export {
        kind: ExternKind::Global,
        index: 5,
    };
    let found = [module.export("f"), module.export("g"), module.export("h")];
    shows(rt, found, [Some(first), Some(global), None]);
    let sizes = [module.contents().exports.len(), module.bytes().len()];
    shows(rt, sizes, [3, 23]);
}

/// A module that exports a function and two more under two names.
fn exporting(alloc: Global) -> Result<Module, Fail> {
    let text = module_of(alloc, "070d03016600000167030501660102")?;
    Ok(decode(alloc, text)?)
}

#[test]
fn exports_by_name(rt: HostRuntime) -> Result<(), Fail> {
    let module = exporting(rt.alloc())?;
    has_exports(&rt, &module);
    drop(module);
    Ok(())
}
