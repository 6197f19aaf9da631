use crate::modules::Judge;
use crate::rows::{RowTeller, check_rows, shows};
use imports::{Call, CallType, EntryPoint, Linked};
use std::alloc::{AllocError, Global};
use std::process::Abort;
use std::test::Fail;
use test_fixtures::{guest_of, module_of};

/// The functions of "uv", and the name, the parameters and the result of each.
const TABLE: &str = "
    now = now [] [I64]
    timer_init = timer_init [] [I32]
    idle_init = idle_init [] [I32]
    check_init = check_init [] [I32]
    timer_start = timer_start [I32, I32, I64, I64] [I32]
    timer_stop = timer_stop [I32] [I32]
    idle_stop = idle_stop [I32] [I32]
    check_stop = check_stop [I32] [I32]
    timer_again = timer_again [I32] [I32]
    idle_start = idle_start [I32, I32] [I32]
    check_start = check_start [I32, I32] [I32]
    async_init = async_init [I32] [I32]
    async_send = async_send [I32] [I32]
    is_active = is_active [I32] [I32]
    close = close [I32, I32] [I32]
    queue_work = queue_work [I32, I32, I32] [I32]
    cancel = cancel [I32] [I32]
    in_len = in_len [] [I32]
    in_copy = in_copy [I32, I32, I32] [I32]
    out_set = out_set [I32, I32] [I32]
    emit = emit [I64] [I32]
";

/// A function by its name and its signature.
fn call_told(alloc: Global, call: Call) -> Result<String, AllocError> {
    let CallType { params, results } = call.signature();
    format!(in alloc; "{} {params:?} {results:?}", call.name())
}

/// Tells of a name the function of this name.
#[derive(Drop)]
struct Named;

impl RowTeller for Named {
    fn tell(&self, alloc: Global, name: &str) -> Result<String, Fail> {
        let Some(call) = Call::from_name(name.as_bytes()) else {
            return Err(Fail::from("an unknown name"));
        };
        Ok(call_told(alloc, call)?)
    }
}

#[test]
fn knows_the_functions_of_the_host(rt: HostRuntime) -> Result<(), Fail> {
    check_rows(&rt, rt.alloc(), TABLE, &Named)
}

/// Imports three functions, and exports all that the host calls.
const GUEST: &str = "011b0560037f7f7f017f60017e017f60000060017f017f60037f7f7f00
    021b020275760a71756575655f776f726b000002757604656d69740001 030403020304
    0725030775765f6d61696e00020775765f776f726b00030d75765f61667465725f776f726b0004
    0a1e030b0041054100410010001a0b0700200041016a0b08002002ac10011a0b";

fn finds(rt: &impl Abort, guest: &Linked) {
    let calls = [guest.call(0), guest.call(1), guest.call(2)];
    let wanted = [Some(Call::QueueWork), Some(Call::Emit), None];
    shows(rt, calls == wanted, true);
    let entries = [
        guest.entry(EntryPoint::Main),
        guest.entry(EntryPoint::Work),
        guest.entry(EntryPoint::AfterWork),
    ];
    shows(rt, entries, [Some(2), Some(3), Some(4)]);
}

#[test]
fn finds_calls_and_entries(rt: HostRuntime) -> Result<(), Fail> {
    let guest = guest_of(rt.alloc(), module_of(rt.alloc(), GUEST)?)?;
    finds(&rt, &guest);
    Ok(())
}

/// Sections.
const PARTS: &str = "
    # now
    0105016000017e 020a01 027576 036e6f77 0000 = accepted
    0105016000017e 020a01 027577 036e6f77 0000 = link 1 Module
    0105016000017e 020901 0175 036e6f77 0000 = link 1 Module
    0105016000017e 020a01 027576 036e6f70 0000 = link 2 Name
    0105016000017e 020901 027576 026e6f 0000 = link 2 Name
    0105016000017e 020b01 027576 046e6f7773 0000 = link 2 Name
    0105016000017f 020a01 027576 036e6f77 0000 = link 3 Type
    010401600000 020a01 027576 036e6f77 0000 = link 3 Type
    # the first wrong import, and an import before an export
    0105016000017f 021302 027576 036e6f77 0000 027577 036e6f77 0000 = link 3 Type
    0105016000017f 020a01 027576 036e6f77 0000 070b01 0775765f6d61696e 0000 = link 3 Type
    # uv_work of type [] to [], uv_main as a memory, and uv_works
    010401600000 03020100 070b01 0775765f776f726b 0000 0a040102000b = link 4 Kind
    0503010001 070b01 0775765f6d61696e 0200 = link 4 Kind
    010401600000 03020100 070b01 0775765f6d61696e 0000 0a040102000b = accepted
    010401600000 03020100 070c01 0875765f776f726b73 0000 0a040102000b = accepted
    # an export before a segment
    0503010000 070b01 0775765f6d61696e 0200 0b07010041000b0101 = link 4 Kind
    # elements in a table of two
    010401600000 03020100 0404017000 02 0908010041000b020000 0a040102000b = accepted
    010401600000 03020100 0404017000 02 0908010041010b020000 0a040102000b = link 5 Segments
    0404017000 02 0906010041020b00 = accepted
    0404017000 02 0906010041030b00 = link 5 Segments
    # bytes in a memory of one page
    0503010001 0b090100 41ffff03 0b 0101 = accepted
    0503010001 0b0a0100 41ffff03 0b 020101 = link 5 Segments
    0503010001 0b080100 41808004 0b 00 = accepted
    0503010001 0b080100 41818004 0b 00 = link 5 Segments
    0503010001 0b070100 417f 0b 0101 = link 5 Segments
";

#[test]
fn judges_imports_exports_and_segments(rt: HostRuntime) -> Result<(), Fail> {
    check_rows(&rt, rt.alloc(), PARTS, &Judge)
}
