// The results of a call.

ghost use Rattle.std.specs.Prelude.{◌≡◌, ◌≤◌, [], length, slice_get};

use limits::MAX_RESULTS;
use std::marker::Model;
use syntax::types::Value;

/// The results of a call, the first first: 0 to `MAX_RESULTS` values.
#[derive(Debug, Drop)]
pub struct Values {
    items: [Value; MAX_RESULTS],
    count: usize,
}

impl Model for Values {
    ghost use Rattle.std.specs.Prelude.{List, take, ◌≤◌};
    ghost use Rattle.limits.specs.declared.TheConstants.{MAX_RESULTS};
    ghost use Rattle.syntax.specs.declared.types.Value.{Value as Item};

    ghost Value = { List Item };

    ghost view = { λ v. take v.count v.items };

    ghost invariant = { λ v. v.count ≤ MAX_RESULTS };
}

impl Values {
    /// These values.
    pub fn from_slice(values: &[Value]) -> Values
        requires { length values.now ≤ MAX_RESULTS }
        ensures { result ≡ values.now }
    {
        let mut items = [Value::I32(0); MAX_RESULTS];
        let count = values.len();
        items[..count].copy_from_slice(values);
        Values { items, count }
    }

    /// No values.
    pub fn empty() -> Values
        ensures { result ≡ [] }
    {
        Values {
            items: [Value::I32(0); MAX_RESULTS],
            count: 0,
        }
    }

    /// The values, the first first.
    pub fn as_slice(&self) -> &[Value]
        ensures { result.now ≡ self.now }
    {
        &self.items[..self.count]
    }

    /// How many values there are.
    pub fn len(&self) -> usize
        ensures { result ≡ length self.now }
    {
        self.as_slice().len()
    }

    /// The value at an index.
    pub fn get(&self, index: usize) -> Option<Value>
        ensures { result ≡ slice_get self.now index }
    {
        self.as_slice().get(index).copied()
    }
}
