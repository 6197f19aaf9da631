// Modules whose code is made, and what becomes of modules.

use crate::rows::RowTeller;
use decode::decode;
use imports::{LinkFault, link};
use std::alloc::{AllocError, Global};
use std::fmt::Display;
use std::test::Fail;
use syntax::module::Module;
use test_fixtures::{bytes_of, module_of};
use valid::Valid;
use validate::validate;

/// A number below 2^28 in its shortest spelling.
fn push_number(bytes: &mut Vec<u8>, number: usize) -> Result<(), AllocError> {
    let mut rest = number;
    for _ in 0..3 {
        if rest < 128 {
            break;
        }
        bytes.push((rest % 128 + 128) as u8)?;
        rest /= 128;
    }
    bytes.push((rest % 128) as u8)?;
    Ok(())
}

/// Appends how many bytes there are, and the bytes.
fn push_sized(bytes: &mut Vec<u8>, part: &[u8]) -> Result<(), AllocError> {
    push_number(bytes, part.len())?;
    bytes.extend_from_slice(part)
}

/// The entry of a body that declares no locals.
fn entry_of(alloc: Global, body: &[u8]) -> Result<Vec<u8>, AllocError> {
    let mut entry = vec![in alloc; 0]?;
    entry.extend_from_slice(body)?;
    Ok(entry)
}

/// What a code section holds with this entry alone.
fn code_of(alloc: Global, entry: &[u8]) -> Result<Vec<u8>, AllocError> {
    let mut code = vec![in alloc; 1]?;
    push_sized(&mut code, entry)?;
    Ok(code)
}

/// Appends a code section with one body, which declares no locals.
fn push_body(alloc: Global, bytes: &mut Vec<u8>, body: &[u8]) -> Result<(), AllocError> {
    let entry = entry_of(alloc, body)?;
    let code = code_of(alloc, entry.as_slice())?;
    bytes.push(0x0a)?;
    push_sized(bytes, code.as_slice())
}

fn with_code(alloc: Global, sections: &str, body: &[u8]) -> Result<Vec<u8>, Fail> {
    let mut bytes = module_of(alloc, sections)?;
    push_body(alloc, &mut bytes, body)?;
    Ok(bytes)
}

/// A module of these sections and a code section with one body, which declares no locals.
pub fn with_body(alloc: Global, sections: &str, digits: &str) -> Result<Vec<u8>, Fail> {
    let body = bytes_of(alloc, digits)?;
    with_code(alloc, sections, body.as_slice())
}

/// A refusal by its step, number and word.
fn refusal<F: Display>(alloc: Global, step: &str, code: u32, fault: &F) -> Result<String, Fail> {
    Ok(format!(in alloc; "{step} {code} {fault}")?)
}

fn link_fault(valid: Valid) -> Option<LinkFault> {
    link(valid).err()
}

fn link_verdict(alloc: Global, valid: Valid) -> Result<String, Fail> {
    match link_fault(valid) {
        None => Ok(String::from_str(alloc, "accepted")?),
        Some(fault) => refusal(alloc, "link", fault.code(), &fault),
    }
}

fn module_verdict(alloc: Global, module: Module) -> Result<String, Fail> {
    match validate(alloc, module) {
        Ok(valid) => link_verdict(alloc, valid),
        Err(fault) => refusal(alloc, "validate", fault.code(), &fault),
    }
}

/// `accepted`, or the first refusal of a module by its step, number and word.
pub fn verdict(alloc: Global, bytes: Vec<u8>) -> Result<String, Fail> {
    match decode(alloc, bytes) {
        Ok(module) => module_verdict(alloc, module),
        Err(fault) => refusal(alloc, "decode", fault.code(), &fault),
    }
}

/// Tells of the sections of a module the verdict on it.
#[derive(Drop)]
pub struct Judge;

impl RowTeller for Judge {
    fn tell(&self, alloc: Global, sections: &str) -> Result<String, Fail> {
        verdict(alloc, module_of(alloc, sections)?)
    }
}
