// What a guest is answered who asks for work, and whose work function reads and sets bytes.

use crate::turns::Turn::{Answer, Order, Steps};
use crate::turns::check;
use std::test::Fail;

/// `uv_main`, with one page, asks for work on the bytes (place, length) = (0, 65537), (1, 65536), (4294967295, 1), (0, 65536)
/// and (65536, 0), then on none until the answer is 32, once more on none, and on the first two again.
const QUEUES: &str = "011b0560037f7f7f017f60017e017f60000060017f017f60037f7f7f00
    021b020275760a71756575655f776f726b000002757604656d69740001
    030403020304
    0503010001
    0725030775765f6d61696e00020775765f776f726b00030d75765f61667465725f776f726b0004
    0a930103
      880101017f41004100418180041000ac10011a41004101418080041000ac10011a4100417f41011000ac10011a41004100418080041000ac10011a41004180800441001000ac
        10011a0340410041004100100022004120480d000b2000ac10011a4100410041001000ac10011a41004100418180041000ac10011a41004101418080041000ac10011a0b
      040020000b
      02000b";

#[test]
fn work_is_asked_for_on_bytes_of_the_memory(rt: HostRuntime) -> Result<(), Fail> {
    let wanted = "run Main 0 -22 -14 -14 1 2 32 -11 -22 -14";
    check(&rt, rt.alloc(), QUEUES, &[Steps(1)], wanted)
}

/// `uv_main` asks for work on no bytes, and on 65537. There is no `uv_after_work`.
const NO_AFTER_WORK: &str = "01150460037f7f7f017f60017e017f60000060017f017f
    021b020275760a71756575655f776f726b000002757604656d69740001
    0303020203
    0715020775765f6d61696e00020775765f776f726b0003
    0a23021c004100410041001000ac10011a41004100418180041000ac10011a0b040020000b";

/// A guest with `uv_after_work` and no `uv_work`.
const NO_WORK: &str = "01160460037f7f7f017f60017e017f60000060037f7f7f00
    021b020275760a71756575655f776f726b000002757604656d69740001
    0303020203
    071b020775765f6d61696e00020d75765f61667465725f776f726b0003
    0a21021c004100410041001000ac10011a41004100418180041000ac10011a0b02000b";

#[test]
fn both_functions_of_work_have_to_be_exported(rt: HostRuntime) -> Result<(), Fail> {
    let wanted = "run Main 0 -38 -38; over";
    check(&rt, rt.alloc(), NO_AFTER_WORK, &[Steps(2)], wanted)?;
    check(&rt, rt.alloc(), NO_WORK, &[Steps(2)], wanted)
}

/// `uv_main` asks for work on no bytes and on one. `uv_work` sets as its reply the length of its input and the answers to
/// `out_set` (65535, 1), (65535, 2), (0, 65537) and to `in_copy` (0, 0, 0), (0, 1, 0), (65536, 0, 0), (65537, 0, 0),
/// (0, 4294967295, 1). `uv_after_work` emits kind and code, the reply's length, the answer to its copying, and the reply.
const WORKS: &str = "01250760037f7f7f017f6000017f60027f7f017f60017e017f60000060017f017f60037f7f7f00
    0241050275760a71756575655f776f726b000002757606696e5f6c656e000102757607696e5f636f70790000027576076f75745f736574000202757604656d69740003
    030403040506
    0503010001
    0725030775765f6d61696e00050775765f776f726b00060d75765f61667465725f776f726b0007
    0ad30103
      1a004100410041001000ac10041a4100410041011000ac10041a0b
      7b0041001001360200410441ffff0341011003360200410841ffff0341021003360200410c4100418180041003360200411041004100410010023602004114410041014100
        1002360200411841808004410041001002360200411c4181800441004100100236020041204100417f410110023602004100412410030b
      3a01017f2001ac10041a2002ac10041a1001ac10041a4100410010011002ac10041a03402003280200ac10041a200341046a22031001490d000b0b";

#[test]
fn a_work_function_is_answered_by_its_input_and_its_memory(rt: HostRuntime) -> Result<(), Fail> {
    let turns = [Steps(1), Order, Answer, Order, Answer, Steps(5)];
    let wanted = "run Main 0 1 2; accepted; accepted; Timers 0; Idle 0; Poll 0; \
        run After 1 0 0 36 0 0 0 -14 -22 0 -22 0 -14 -22; run After 2 0 0 36 0 1 0 -14 -22 0 0 0 -14 -22";
    check(&rt, rt.alloc(), WORKS, &turns, wanted)
}
