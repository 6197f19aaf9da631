use crate::modules::{Judge, verdict, with_body};
use crate::rows::{RowTeller, check_rows};
use std::alloc::Global;
use std::test::Fail;

/// One function `f` from nothing to an i32.
const ONE_FUNCTION: &str = "0105016000017f 03020100 07050101660000";

/// Bodies of that function.
const BODIES: &str = "
    4107 0b = accepted
    # a block leaves two operands
    027f 4101 4102 0b 0b = validate 1 Type
    # an i64 is added
    00 4201 6a 0b = validate 1 Type
    # a branch of an `if` with a result is missing
    4101 047f 4102 0b 0b = validate 1 Type
    # the labels of a br_table differ
    0240 4107 4100 0e010001 0b 4107 0b = validate 1 Type
    00 0240 0e010001 0b 4107 0b = validate 1 Type
    # all labels are looked up before any is compared
    0240 4107 4100 0e02000901 0b 4107 0b = validate 3 Label
    0c05 0b = validate 3 Label
    2000 0b = validate 2 Index
    # operands that can't be reached
    00 1a 6a 0b = accepted
    01 1a 6a 0b = validate 1 Type
    00 1b 0b = accepted
    # sign extension
    418001 c0 0b = accepted
    # what is named comes before operands, the memory before the alignment
    0405 0b 0b = validate 2 Index
    280500 0b = validate 2 Index
    110000 0b = validate 2 Index
";

/// A module with two more types: from nothing to two i32, and from an i32 to an i32.
const THREE_TYPES: &str = "010f 03 6000017f 6000027f7f 60017f017f 03020100 07050101660000";

/// Bodies of its function.
const BODIES_OF_THREE_TYPES: &str = "
    0201 4103 4104 0b 6b 0b = accepted
    4107 4100 0402 0b 0b = accepted
    0205 0b 0b = validate 2 Index
    02ff7f 0b 0b = decode 7 Kind
    # a branch to a loop carries its parameters
    4107 0302 0c00 0b 0b = accepted
    4107 0302 1a 0c00 0b 0b = validate 1 Type
    # a block begins without the operands below its parameters
    4107 4108 0202 6a 0b 1a 0b = validate 1 Type
    # a missing else needs equal parameters and results
    4107 4100 0401 0b 1a 0b = validate 1 Type
";

/// Tells of a body, which comes after these sections, the verdict on the module.
#[derive(Drop)]
struct WithBody(&'static str);

impl RowTeller for WithBody {
    fn tell(&self, alloc: Global, body: &str) -> Result<String, Fail> {
        verdict(alloc, with_body(alloc, self.0, body)?)
    }
}

#[test]
fn judges_bodies(rt: HostRuntime) -> Result<(), Fail> {
    let three_types = WithBody(THREE_TYPES);
    check_rows(&rt, rt.alloc(), BODIES, &WithBody(ONE_FUNCTION))?;
    check_rows(&rt, rt.alloc(), BODIES_OF_THREE_TYPES, &three_types)
}

/// Sections.
const PARTS: &str = "
    # two results
    010601600002 7f7f 03020100 07050101660000 0a0801060041074108 0b = accepted
    # 16 results, then 17
    01140160 00107f7f7f7f7f7f7f7f7f7f7f7f7f7f7f7f = accepted
    01150160 00117f7f7f7f7f7f7f7f7f7f7f7f7f7f7f7f7f = validate 6 Result
    # an import with two results, and one whose type is missing
    010601600002 7f7f 020a01027576036e6f770000 = validate 6 Result
    020a01027576036e6f770000 = validate 2 Index
    # a function whose type is missing
    03020100 0a040102000b = validate 2 Index
    # the start function has a result, takes none, or is missing
    0105016000017f 03020100 080100 0a0601040041070b = validate 8 Start
    010401600000 03020100 080100 0a040102000b = accepted
    080100 = validate 2 Index
    # a name of 300 bytes
    0105016000017f 03020100 07b10201ac02 300*67 0000 0a0601040041070b = accepted
    # two exports of one name before the start function, which has a result
    0105016000017f 03020100 0709020166000001660000 080100 0a0601040041070b = validate 7 Export
    # two exports of one name, also where the second names nothing
    0105016000017f 03020100 0709020166000001660000 0a0601040041070b = validate 7 Export
    0105016000017f 03020100 0709020166000001660005 0a0601040041070b = validate 7 Export
    07050101660000 = validate 2 Index
    07050101660100 = validate 2 Index
    # a global that begins with an i64, and one that begins with two constants
    0606017f0042010b = validate 9 Constant
    0608017f004101 41010b = validate 9 Constant
    0606017f0041010b = accepted
    # an element and a data segment without table or memory, and with offsets that are i64
    0906010041000b00 = validate 2 Index
    0404017000 01 0906010042000b00 = validate 9 Constant
    0b06010041000b00 = validate 2 Index
    0503010001 0b06010042000b00 = validate 9 Constant
    # a constant global is set
    0105016000017f 03020100 0606017f0041010b 0a0a01080041072400 41070b = validate 5 Mutability
    0105016000017f 03020100 0606017f0141010b 0a0a01080041072400 41070b = accepted
    # a load of four bytes aligned to four, then to eight
    01060160017f017f 03020100 0503010001 0a0901070020002802000b = accepted
    01060160017f017f 03020100 0503010001 0a0901070020002803000b = validate 4 Align
    # one parameter with 255 and with 256 locals
    01060160017f017f 03020100 0a09010701ff017f20000b = accepted
    01060160017f017f 03020100 0a0901070180027f20000b = validate 10 Height
";

#[test]
fn judges_parts(rt: HostRuntime) -> Result<(), Fail> {
    check_rows(&rt, rt.alloc(), PARTS, &Judge)
}

/// Large bodies of the one function.
const LARGE: &str = "
    256*4100 255*1a 0b = accepted
    257*4100 256*1a 0b = validate 10 Height
    00 300*1a 4107 0b = accepted
    00 257*4100 0b = validate 10 Height
    256*0240 256*0b 4107 0b = accepted
    257*0240 257*0b 4107 0b = validate 11 Nesting
    # which are decoded, however deep they are
    100000*0240 100000*0b 4107 0b = validate 11 Nesting
    # operands before the nesting
    256*0240 0440 257*0b 4107 0b = validate 1 Type
";

#[test]
fn bounds_height_and_nesting(rt: HostRuntime) -> Result<(), Fail> {
    check_rows(&rt, rt.alloc(), LARGE, &WithBody(ONE_FUNCTION))
}
