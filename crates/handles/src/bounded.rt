// A vector that takes its memory once.

ghost use Rattle.std.specs.Prelude.{◌≡◌, ◌<◌, ◌≤◌, ◌++◌, ◌∷◌, [], ◌==◌, ◌-◌, ◌↔◌, length, insert, remove, take, IfOk, IsSome};
ghost use Rattle.std.specs.Option.{option_to_list};

use std::alloc::{AllocError, Global};
use std::marker::Model;

/// At most `N` elements, with room for all of them from the start. The room is a block of its own, of which nothing is touched before
/// it is used. Contracts see the list of the elements.
#[derive(Debug, Drop)]
pub struct Bounded<T, const N: usize> {
    items: Vec<T>,
}

impl<T, const N: usize> Model for Bounded<T, N> {
    ghost use Rattle.std.specs.Prelude.{List, ◌≤◌, length, vec_capacity};
    ghost use Rattle.std.specs.Coded.{coded_list};

    ghost Value = { List T };

    ghost coded = { coded_list T.code };

    ghost view = { λ b. b.items.items };

    ghost invariant = { λ b. (length b.items.items ≤ N) × (N ≤ vec_capacity b.items) };
}

impl<T: Drop, const N: usize> Bounded<T, N> {
    /// No element. `AllocError` comes where memory is refused; no other call takes any.
    pub fn new(alloc: Global) -> Result<Self, AllocError>
        ensures { IfOk result (λ made. made ≡ []) }
    {
        Ok(Bounded {
            items: Vec::with_capacity(alloc, N)?,
        })
    }

    /// The elements.
    #[inline]
    pub fn as_slice(&self) -> &[T]
        ensures value { result.now ≡ self.now }
        ensures most { length result.now ≤ N }
    {
        self.items.as_slice()
    }

    /// How many elements there are.
    #[inline]
    pub fn len(&self) -> usize
        ensures value { result ≡ length self.now }
        ensures most { result ≤ N }
    {
        self.items.len()
    }

    /// Whether there is no element.
    #[inline]
    pub fn is_empty(&self) -> bool
        ensures { result ≡ (length self.now == 0) }
    {
        self.items.is_empty()
    }

    /// Whether no other element has room.
    #[inline]
    pub fn is_full(&self) -> bool
        ensures value { result ≡ (length self.now == N) }
        ensures fits { length self.now ≤ N }
    {
        self.items.len() == N
    }

    /// Adds an element at the end.
    #[inline]
    pub fn push(&mut self, item: T)
        requires { length self.old < N }
        ensures { self.new ≡ self.old ++ item ∷ [] }
    {
        let Ok(()) = self.items.push(item) else {
            unreachable!();
        };
    }

    /// Inserts an element at an index. Those from there on move up.
    #[inline]
    pub fn insert(&mut self, at: usize, item: T)
        requires in_bounds { at ≤ length self.old }
        requires room { length self.old < N }
        ensures { self.new ≡ insert self.old at item }
    {
        let Ok(()) = self.items.insert(at, item) else {
            unreachable!();
        };
    }

    /// Removes the element at an index. Those behind it move down.
    #[inline]
    pub fn remove(&mut self, at: usize)
        requires { at < length self.old }
        ensures { self.new ≡ remove self.old at }
    {
        self.items.remove(at);
    }

    /// Removes the last element, if there is one.
    #[inline]
    pub fn pop(&mut self) -> Option<T>
        ensures items { self.old ≡ self.new ++ option_to_list result }
        ensures variant { IsSome result ↔ (0 < length self.old) }
        ensures rest { self.new ≡ take (length self.old - 1) self.old }
    {
        self.items.pop()
    }

    /// Leaves no element. What is empty already isn't touched.
    #[inline]
    pub fn clear(&mut self)
        ensures { self.new ≡ [] }
    {
        if !self.items.is_empty() {
            self.items.clear();
        }
    }
}
