//! A host of a plug-in that keeps its state: it calls a function of the plug-in twice, and reads its memory.
#![tactic(auto)]

use embed::{Ending, Resident, Value, load};
use std::fs;
use std::sync::Arc;

/// An instance of the plug-in, whose start function has returned.
fn plugin(rt: &HostRuntime, file: &str) -> anyhow::Result<Resident> {
    let linked = load(rt.alloc(), fs::read(rt, file)?.as_slice())?;
    let mut plugin = Resident::new(rt.alloc(), Arc::new(rt.alloc(), linked)?)?;
    match plugin.start(1_000, 64).ending {
        Ending::Return(_) => Ok(plugin),
        _ => anyhow::bail!("the start function of {file} does not return"),
    }
}

/// Calls a function of the plug-in by the name that it is exported under, which is to return a value.
fn call(plugin: &mut Resident, name: &str, args: &[Value]) -> anyhow::Result<Value> {
    let Some((function, _)) = plugin.function(name.as_bytes()) else {
        anyhow::bail!("the plug-in exports no function {name}");
    };
    if !plugin.takes(function, args) {
        anyhow::bail!("{name} takes other arguments");
    }
    let Ending::Return(values) = plugin.call(function, args, 1_000, 64).ending else {
        anyhow::bail!("{name} does not return");
    };
    let Some(value) = values.get(0) else {
        anyhow::bail!("{name} returns nothing");
    };
    Ok(value)
}

fn main(rt: HostRuntime) -> anyhow::Result<()> {
    let mut plugin = plugin(&rt, "notes.wasm")?;
    for number in [30, 12] {
        let told = call(&mut plugin, "add", &[Value::I32(number)])?;
        println!(rt; "add({number}) is {told:?}")?;
    }
    let mut total = [0; 4];
    if plugin.read(0, &mut total) {
        println!(rt; "its memory has {}", u32::from_le_bytes(total))?;
    }
    Ok(())
}
