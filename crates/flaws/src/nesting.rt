// How deep a text of JSON nests.

use json::MAX_DEPTH;

/// A walk over a text of JSON, letter by letter.
#[derive(Clone, Copy)]
struct Nesting {
    /// How many lists and objects are open.
    depth: usize,
    is_in_string: bool,
    /// Whether a backslash stands before the next byte.
    is_escaped: bool,
}

impl Nesting {
    fn pass(self, byte: u8) -> Nesting {
        let Nesting {
            depth,
            is_in_string,
            is_escaped,
        } = self;
        let after = Nesting {
            is_escaped: false,
            ..self
        };
        match byte {
            _ if is_escaped => after,
            b'\\' if is_in_string => Nesting {
                is_escaped: true,
                ..self
            },
            b'"' => Nesting {
                is_in_string: !is_in_string,
                ..after
            },
            b'[' | b'{' if !is_in_string => Nesting {
                depth: depth.saturating_add(1),
                ..after
            },
            b']' | b'}' if !is_in_string => Nesting {
                depth: depth.saturating_sub(1),
                ..after
            },
            _ => after,
        }
    }
}

/// The first bracket that opens one level more than is read, where there is one.
pub fn deepest(text: &str) -> Option<usize> {
    let mut nesting = Nesting {
        depth: 0,
        is_in_string: false,
        is_escaped: false,
    };
    for (at, byte) in text.as_bytes().iter().enumerate() {
        nesting = nesting.pass(*byte);
        if nesting.depth > MAX_DEPTH {
            return Some(at);
        }
    }
    None
}
