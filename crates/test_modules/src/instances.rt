// Instances that take one turn after another: their memories, tables, globals and segments.

use crate::instances::Turn::{Copy, Element, Get, Grow, Length, Load, Read, Set, Store, Write};
use crate::rows::{RowTeller, check_rows, check_told_of, shows};
use instance::access::AccessSize::{self, Eight, Four, One, Two};
use instance::fault::InstFault;
use instance::memory::Memory;
use instance::state::Instance;
use std::alloc::{AllocError, Global};
use std::fmt::Debug;
use std::process::Abort;
use std::test::Fail;
use syntax::types::{Limits, Value};
use test_fixtures::{module_of, valid_of};
use valid::Valid;

/// What is done with an instance.
#[derive(Clone, Copy)]
enum Turn {
    /// The memory is to grow by so many pages. What that answers is printed, and how many there are then.
    Grow(u32),
    /// A number is loaded, by its address and offset.
    Load(u32, u32, AccessSize),
    /// A number is stored. Whether it was is printed.
    Store(u32, u32, AccessSize, u64),
    /// How many bytes the memory has is printed.
    Length,
    /// So many bytes of the memory are read.
    Read(usize, usize),
    /// Bytes are copied over what is in the room, 16 at most.
    Copy(usize, usize),
    /// Bytes are written to the memory. Whether they were is printed.
    Write(usize, &'static [u8]),
    /// An element of the table is looked up.
    Element(u32),
    /// A global is looked up.
    Get(u32),
    /// A global is set. Whether it was is printed.
    Set(u32, Value),
}

/// Appends an answer.
fn tell<T: Debug + Drop>(text: &mut String, answer: T) -> Result<(), AllocError> {
    write!(text, "{answer:?}; ")
}

/// What the memory has to say of its growth.
fn tell_grown(text: &mut String, instance: &mut Instance, delta: u32) -> Result<(), AllocError> {
    let grown = instance.grow(delta).cast_signed();
    write!(text, "{grown} of {}; ", instance.size())
}

fn tell_copied(
    text: &mut String,
    memory: &Memory,
    at: usize,
    length: usize,
) -> Result<(), AllocError> {
    let mut room = [9; 16];
    let into = &mut room[..length.min(16)];
    let there = memory.read_into(at, into);
    tell(text, there.then_some(&*into))
}

fn take(text: &mut String, instance: &mut Instance, turn: Turn) -> Result<(), AllocError> {
    match turn {
        Grow(delta) => tell_grown(text, instance, delta),
        Load(address, offset, size) => tell(text, instance.load(address, offset, size)),
        Store(address, offset, size, number) => {
            tell(
                text,
                instance.store(address, offset, size, number).is_some(),
            )
        }
        Length => tell(text, instance.memory().len()),
        Read(at, length) => tell(text, instance.memory_mut().read(at, length)),
        Copy(at, length) => tell_copied(text, instance.memory(), at, length),
        Write(at, bytes) => tell(text, instance.memory_mut().write(at, bytes)),
        Element(index) => tell(text, instance.element(index)),
        Get(index) => tell(text, instance.global(index)),
        Set(index, value) => tell(text, instance.set_global(index, value)),
    }
}

fn take_all(text: &mut String, instance: &mut Instance, turns: &[Turn]) -> Result<(), AllocError> {
    for turn in turns {
        take(text, instance, *turn)?;
    }
    Ok(())
}

fn told_by(alloc: Global, instance: &mut Instance, turns: &[Turn]) -> Result<String, AllocError> {
    let mut text = String::new(alloc);
    take_all(&mut text, instance, turns)?;
    Ok(text)
}

/// What an instance of this module answers in these turns.
fn told_of(alloc: Global, valid: &Valid, turns: &[Turn]) -> Result<String, Fail> {
    let mut instance = Instance::new(alloc, valid)?;
    let told = told_by(alloc, &mut instance, turns);
    drop(instance);
    Ok(told?)
}

/// The valid module that has these sections.
fn valid_with(alloc: Global, sections: &str) -> Result<Valid, Fail> {
    valid_of(alloc, module_of(alloc, sections)?)
}

/// What an instance of a module with these sections answers in these turns.
fn told(alloc: Global, sections: &str, turns: &[Turn]) -> Result<String, Fail> {
    let valid = valid_with(alloc, sections)?;
    let told = told_of(alloc, &valid, turns);
    drop(valid);
    told
}

fn check(
    rt: &impl Abort,
    alloc: Global,
    sections: &str,
    turns: &[Turn],
    wanted: &str,
) -> Result<(), Fail> {
    let told = told(alloc, sections, turns)?;
    check_told_of(rt, told.as_str(), wanted, sections);
    Ok(())
}

/// One page, and at most two.
const BOUNDED: &str = "050401010102";

/// One page, and no maximum.
const ONE_PAGE: &str = "0503010001";

#[test]
fn grows_up_to_its_maximum(rt: HostRuntime) -> Result<(), Fail> {
    let turns = [
        Grow(1),
        Grow(1),
        Grow(0),
        Grow(u32::MAX),
        Load(131_064, 0, Eight),
    ];
    let wanted = "1 of 2; -1 of 2; 2 of 2; -1 of 2; Some(0); ";
    check(&rt, rt.alloc(), BOUNDED, &turns, wanted)
}

#[test]
fn grows_up_to_its_limit(rt: HostRuntime) -> Result<(), Fail> {
    let turns = [Grow(63), Grow(1), Length];
    let wanted = "1 of 64; -1 of 64; 4194304; ";
    check(&rt, rt.alloc(), ONE_PAGE, &turns, wanted)
}

/// One page, with 80 ff at its start.
const BEGINS_WITH_FF80: &str = "0503010001 0b08010041000b0280ff";

/// Its bytes from the lowest on are 17, 34, 51 and so on.
const NUMBER: u64 = 0x8877_6655_4433_2211;

const LOADS_AND_STORES: [Turn; 16] = [
    Load(0, 0, One),
    Load(0, 0, Two),
    Load(0, 0, Four),
    Load(0, 0, Eight),
    Store(8, 0, Eight, 0),
    Store(3, 5, One, NUMBER),
    Read(8, 9),
    Store(8, 0, Eight, 0),
    Store(3, 5, Two, NUMBER),
    Read(8, 9),
    Store(8, 0, Eight, 0),
    Store(3, 5, Four, NUMBER),
    Read(8, 9),
    Store(8, 0, Eight, 0),
    Store(3, 5, Eight, NUMBER),
    Read(8, 9),
];

#[test]
fn loads_and_stores_numbers(rt: HostRuntime) -> Result<(), Fail> {
    let wanted = "Some(128); Some(65408); Some(65408); Some(65408); \
        true; true; Some([17, 0, 0, 0, 0, 0, 0, 0, 0]); \
        true; true; Some([17, 34, 0, 0, 0, 0, 0, 0, 0]); \
        true; true; Some([17, 34, 51, 68, 0, 0, 0, 0, 0]); \
        true; true; Some([17, 34, 51, 68, 85, 102, 119, 136, 0]); ";
    check(&rt, rt.alloc(), BEGINS_WITH_FF80, &LOADS_AND_STORES, wanted)
}

const PAST_THE_END: [Turn; 7] = [
    Load(65_532, 0, Four),
    Load(65_533, 0, Four),
    Load(u32::MAX, 1, One),
    Store(65_535, 0, One, 7),
    Store(65_535, 0, Two, 9),
    Store(u32::MAX, 1, One, 9),
    Load(65_528, 0, Eight),
];

#[test]
fn refuses_accesses_past_the_end(rt: HostRuntime) -> Result<(), Fail> {
    let wanted = "Some(0); None; None; true; false; false; Some(504403158265495552); ";
    check(&rt, rt.alloc(), ONE_PAGE, &PAST_THE_END, wanted)
}

/// A table of three elements with functions 0, 0 from element 0 on, then 1 from element 1 on; a memory of one page with
/// the bytes 1, 2, 3 from 0 on, then 9 from 1 on; a mutable global 42; and the two functions, of type [] to [].
const OVERLAPPING: &str = "010401600000 0303020000 040401700003 0503010001 0606017f01412a0b
    090e02 0041000b020000 0041010b0101 0a0702 02000b 02000b
    0b0f02 0041000b03010203 0041010b0109";

const LOOKS: [Turn; 9] = [
    Element(0),
    Element(1),
    Element(2),
    Element(3),
    Load(0, 0, Four),
    Get(0),
    Set(0, Value::I32(7)),
    Get(0),
    Set(1, Value::I32(7)),
];

#[test]
fn later_segments_overwrite_earlier_ones(rt: HostRuntime) -> Result<(), Fail> {
    let wanted = "Some(Some(0)); Some(Some(1)); Some(None); None; Some(198913); \
        Some(I32(42)); true; Some(I32(7)); false; ";
    check(&rt, rt.alloc(), OVERLAPPING, &LOOKS, wanted)
}

#[test]
fn lends_its_memory(rt: HostRuntime) -> Result<(), Fail> {
    let turns = [
        Write(65_534, &[1, 2]),
        Write(65_535, &[3, 4]),
        Read(65_534, 2),
        Load(65_534, 0, Two),
    ];
    let wanted = "true; false; Some([1, 2]); Some(513); ";
    check(&rt, rt.alloc(), ONE_PAGE, &turns, wanted)
}

/// Loads, stores and reads that begin before a multiple of 4,096 and end after it, and what lies far beyond.
const ACROSS: [Turn; 14] = [
    Load(4_092, 0, Eight),
    Store(4_095, 0, One, 7),
    Load(4_092, 0, Eight),
    Load(4_095, 0, Two),
    Load(4_096, 0, Four),
    Read(4_094, 4),
    Write(8_190, &[1, 2, 3]),
    Load(8_190, 0, Four),
    Grow(1),
    Load(65_532, 0, Eight),
    Store(65_535, 0, Four, NUMBER),
    Read(65_533, 8),
    Load(131_064, 0, Eight),
    Read(131_071, 1),
];

#[test]
fn is_zero_where_nothing_was_written(rt: HostRuntime) -> Result<(), Fail> {
    let wanted = "Some(0); true; Some(117440512); Some(7); Some(0); Some([0, 7, 0, 0]); \
        true; Some(197121); 1 of 2; Some(0); true; Some([0, 0, 17, 34, 51, 68, 0, 0]); \
        Some(0); Some([0]); ";
    check(&rt, rt.alloc(), BOUNDED, &ACROSS, wanted)
}

#[test]
fn copies_what_is_there(rt: HostRuntime) -> Result<(), Fail> {
    let turns = [
        Write(4_090, &[7]),
        Copy(4_089, 4),
        Copy(65_534, 2),
        Copy(65_534, 3),
        Copy(65_536, 0),
        Copy(65_537, 0),
    ];
    let wanted = "true; Some([0, 7, 0, 0]); Some([0, 0]); None; Some([]); None; ";
    check(&rt, rt.alloc(), BOUNDED, &turns, wanted)
}

#[test]
fn without_a_memory_there_are_no_bytes(rt: HostRuntime) -> Result<(), Fail> {
    let turns = [Length, Read(0, 0), Read(0, 1), Grow(1), Grow(0)];
    let wanted = "0; Some([]); None; -1 of 0; 0 of 0; ";
    check(&rt, rt.alloc(), "", &turns, wanted)
}

/// An empty table and one page; no functions and no bytes, at the end of each and one past it.
const SEGMENTS: &str = "
    040401700000 0503010001 0906010041000b00 0b08010041808004 0b00 = None
    040401700000 0503010001 0906010041010b00 0b08010041808004 0b00 = Some(ElementRange)
    040401700000 0503010001 0906010041000b00 0b08010041818004 0b00 = Some(DataRange)
    040401700000 0503010001 0906010041010b00 0b08010041818004 0b00 = Some(ElementRange)
";

fn fault_of(alloc: Global, valid: &Valid) -> Option<InstFault> {
    Instance::new(alloc, valid).err()
}

fn fault_with(alloc: Global, sections: &str) -> Result<Option<InstFault>, Fail> {
    let valid = valid_with(alloc, sections)?;
    let fault = fault_of(alloc, &valid);
    drop(valid);
    Ok(fault)
}

/// Tells of the sections of a module the fault of its instance, if it has one.
#[derive(Drop)]
struct Fault;

impl RowTeller for Fault {
    fn tell(&self, alloc: Global, sections: &str) -> Result<String, Fail> {
        let fault = fault_with(alloc, sections)?;
        Ok(format!(in alloc; "{fault:?}")?)
    }
}

#[test]
fn segments_have_to_fit(rt: HostRuntime) -> Result<(), Fail> {
    check_rows(&rt, rt.alloc(), SEGMENTS, &Fault)
}

#[test]
fn a_memory_begins_with_its_least_size(rt: HostRuntime) -> Result<(), AllocError> {
    let limits = Limits {
        min: 2,
        max: Some(3),
    };
    let memory = Memory::new(rt.alloc(), Some(limits))?;
    shows(&rt, memory.len(), 131072);
    Ok(())
}
