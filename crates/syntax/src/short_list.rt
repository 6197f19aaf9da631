// Lists that are made once and then read: names, and lists of types. Most are short, and their items lie in the list itself.

ghost use Rattle.std.specs.Prelude.{◌≡◌, ◌≤◌, take, length, slice_get, IfOk};
ghost use Rattle.std.specs.Option.{option_copied};
ghost use Rattle.syntax.specs.Inner.Kept.{kept_name, kept_types, NameIsThere, TypesAreThere};

use crate::types::ValType;
use std::alloc::{AllocError, Global};
use std::boxed::Box;
use std::marker::Model;

/// How many items are a few.
const FEW: usize = 14;

/// How many bytes of a name are some: with them it takes no more memory than a vector does for the least of them.
const SOME: usize = 39;

/// Puts items in front.
fn put_first<T: Copy>(places: &mut [T], items: &[T])
    requires { length items.now ≤ length places.old }
    ensures first { take (length items.now) places.new ≡ items.now }
    ensures same { length places.new ≡ length places.old }
{
    places[..items.len()].copy_from_slice(items);
}

/// A few bytes, or some or many in memory of their own. Of the places for a few or some the first so many are the name.
#[derive(Drop)]
pub enum KeptName {
    Few(u8, [u8; FEW]),
    Some(u8, Box<[u8; SOME], Global>),
    Many(Box<Vec<u8>, Global>),
}

/// A name, by its bytes. Contracts see their list.
#[derive(Drop)]
pub struct Name {
    kept: KeptName,
}

const _: () = prove!(size_of::<Name>() <= 16);

impl Model for Name {
    ghost use Rattle.std.specs.Prelude.{ℕ, List};
    ghost use Rattle.std.specs.Coded.{coded_list, coded_ℕ};
    ghost use Rattle.syntax.specs.Inner.Kept.{kept_name, NameIsThere};

    ghost Value = { List ℕ };

    ghost coded = { coded_list coded_ℕ };

    ghost view = { λ name. kept_name name.kept };

    ghost invariant = { λ name. NameIsThere name.kept };
}

fn keep_few(bytes: &[u8]) -> KeptName
    requires { length bytes.now ≤ FEW }
    ensures same { kept_name result ≡ bytes.now }
    ensures there { NameIsThere result }
{
    let mut few = [0; FEW];
    put_first(&mut few, bytes);
    KeptName::Few(bytes.len() as u8, few)
}

fn keep_some(alloc: Global, bytes: &[u8]) -> Result<KeptName, AllocError>
    requires { length bytes.now ≤ SOME }
    ensures same { IfOk result (λ kept. kept_name kept ≡ bytes.now) }
    ensures there { IfOk result (λ kept. NameIsThere kept) }
{
    let mut some = [0; SOME];
    put_first(&mut some, bytes);
    Ok(KeptName::Some(bytes.len() as u8, Box::new(alloc, some)?))
}

fn keep_name(alloc: Global, bytes: &[u8]) -> Result<KeptName, AllocError>
    ensures same { IfOk result (λ kept. kept_name kept ≡ bytes.now) }
    ensures there { IfOk result (λ kept. NameIsThere kept) }
{
    if bytes.len() <= FEW {
        return Ok(keep_few(bytes));
    }
    if bytes.len() <= SOME {
        return keep_some(alloc, bytes);
    }
    let many = Vec::from_slice(alloc, bytes)?;
    Ok(KeptName::Many(Box::new(alloc, many)?))
}

impl Name {
    /// The name of these bytes.
    pub fn from_slice(alloc: Global, bytes: &[u8]) -> Result<Name, AllocError>
        ensures { IfOk result (λ name. name ≡ bytes.now) }
    {
        let kept = keep_name(alloc, bytes)?;
        Ok(Name { kept })
    }

    /// Its bytes from first to last.
    pub fn as_slice(&self) -> &[u8]
        ensures { result.now ≡ self.now }
    {
        match &self.kept {
            KeptName::Few(count, few) => &few[..*count as usize],
            KeptName::Some(count, some) => &some[..*count as usize],
            KeptName::Many(many) => many.as_slice(),
        }
    }
}

/// A few types, or many in memory of their own. Of the places for a few the first so many are in the list.
#[derive(Drop)]
pub enum KeptTypes {
    Few(u8, [ValType; FEW]),
    Many(Box<Vec<ValType>, Global>),
}

/// Value types. Contracts see their list.
#[derive(Drop)]
pub struct TypeList {
    kept: KeptTypes,
}

const _: () = prove!(size_of::<TypeList>() <= 16);

impl Model for TypeList {
    ghost use Rattle.std.specs.Prelude.{List};
    ghost use Rattle.syntax.specs.declared.types.ValType.{ValType};
    ghost use Rattle.syntax.specs.Inner.Kept.{kept_types, types_coded, TypesAreThere};

    ghost Value = { List ValType };

    ghost coded = { types_coded };

    ghost view = { λ list. kept_types list.kept };

    ghost invariant = { λ list. TypesAreThere list.kept };
}

fn keep_few_types(types: &[ValType]) -> KeptTypes
    requires { length types.now ≤ FEW }
    ensures same { kept_types result ≡ types.now }
    ensures there { TypesAreThere result }
{
    let mut few = [ValType::I32; FEW];
    put_first(&mut few, types);
    KeptTypes::Few(types.len() as u8, few)
}

impl TypeList {
    /// The list of these types.
    pub fn from_slice(alloc: Global, types: &[ValType]) -> Result<TypeList, AllocError>
        ensures { IfOk result (λ list. list ≡ types.now) }
    {
        if types.len() <= FEW {
            let kept = keep_few_types(types);
            return Ok(TypeList { kept });
        }
        let many = Vec::from_slice(alloc, types)?;
        let kept = KeptTypes::Many(Box::new(alloc, many)?);
        Ok(TypeList { kept })
    }

    /// The types from first to last.
    #[inline]
    pub fn as_slice(&self) -> &[ValType]
        ensures { result.now ≡ self.now }
    {
        match &self.kept {
            KeptTypes::Few(count, few) => &few[..*count as usize],
            KeptTypes::Many(many) => many.as_slice(),
        }
    }

    /// How many there are.
    #[inline]
    pub fn len(&self) -> usize
        ensures { result ≡ length self.now }
    {
        self.as_slice().len()
    }

    /// The type at this index, counted from 0, or none where the index is at or past the length.
    #[inline]
    pub fn get(&self, at: usize) -> Option<&ValType>
        ensures { option_copied result ≡ slice_get self.now at }
    {
        self.as_slice().get(at)
    }
}
