// Initializers: what a global begins with, and where a segment lies (WebAssembly Core 1.0, 2.5.5 to 2.5.8).

ghost use Rattle.std.specs.Prelude.{◌≡◌, ◌↔◌, Some, IfOk};
ghost use Rattle.syntax.specs.declared.types.Value.{Value as Number};
ghost use Rattle.syntax.specs.declared.instruction.Instr.TheVariants.{Const};
ghost use Rattle.syntax.specs.Code.{Plain, Done};
ghost use Rattle.syntax.specs.Inner.Initializers.{kept_initializer};

use crate::body::Body;
use crate::instruction::{Instr, Token};
use crate::types::Value;
use std::alloc::{AllocError, Global};
use std::boxed::Box;
use std::marker::Model;

/// One constant, as every initializer of a valid module is, or another expression.
#[derive(Drop)]
pub enum KeptInitializer {
    I32(u32),
    I64(u64),
    Other(Box<Body, Global>),
}

/// An initializer: an expression that is mostly one constant, and then takes no memory of its own. Contracts see the tree.
#[derive(Drop)]
pub struct Initializer {
    kept: KeptInitializer,
}

const _: () = prove!(size_of::<Initializer>() <= 16);

impl Model for Initializer {
    ghost use Rattle.syntax.specs.Code.{Code, code_coded};
    ghost use Rattle.syntax.specs.Inner.Initializers.{kept_initializer};

    ghost Value = { Code };

    ghost coded = { code_coded };

    ghost view = { λ it. kept_initializer it.kept };
}

/// The constant that an expression is, if it is exactly one.
fn constant_of(body: &Body) -> Option<Value>
    ensures { (value : Number) → (result ≡ Some value) ↔ (body.now ≡ Plain (Const value) Done) }
{
    let operations = body.ops();
    if operations.len() != 2 {
        return None;
    }
    match operations.at(0).operation() {
        Token::Plain(Instr::Const(value)) => Some(value),
        _ => None,
    }
}

fn keep_constant(value: Value) -> KeptInitializer
    ensures { kept_initializer result ≡ Plain (Const value) Done }
{
    match value {
        Value::I32(number) => KeptInitializer::I32(number),
        Value::I64(number) => KeptInitializer::I64(number),
    }
}

impl Initializer {
    /// This expression.
    pub fn new(alloc: Global, body: Body) -> Result<Initializer, AllocError>
        ensures { IfOk result (λ it. it ≡ body) }
    {
        if let Some(value) = constant_of(&body) {
            let kept = keep_constant(value);
            return Ok(Initializer { kept });
        }
        let kept = KeptInitializer::Other(Box::new(alloc, body)?);
        Ok(Initializer { kept })
    }

    /// The constant that it is, if it is exactly one.
    pub fn constant(&self) -> Option<Value>
        ensures { (value : Number) → (result ≡ Some value) ↔ (self.now ≡ Plain (Const value) Done) }
    {
        match &self.kept {
            KeptInitializer::I32(number) => Some(Value::I32(*number)),
            KeptInitializer::I64(number) => Some(Value::I64(*number)),
            KeptInitializer::Other(body) => constant_of(body),
        }
    }
}
