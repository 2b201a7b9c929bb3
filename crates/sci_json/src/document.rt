// A JSON text (RFC 8259) that was read, and its values where they stand in it.
mod number;
mod value;

ghost use Rattle.std.specs.Prelude.{◌≡◌, ◌&&◌, nat_le, map, Some, None, Err, is_some, IfOk, IsUtf8};
ghost use Rattle.json.specs.Json.{Json};
ghost use Rattle.json.specs.Tape.{node_token};
ghost use Rattle.json.specs.Tree.{json_tokens, depth};
ghost use Rattle.serde_json.specs.Read.{of_json, read, max_depth};
ghost use Rattle.sci_json.specs.View.{view};

use json::{Node, Scratch, Tape};
use std::alloc::Global;
use std::marker::Model;
pub use value::{Items, Members, Value};

/// Why a text was not read.
#[derive(Clone, Copy, Drop)]
pub enum ParseStop {
    /// The bytes are no UTF-8, or are not one JSON value: arrays and objects may nest 127 deep, and each number has to be in the
    /// range of the floats.
    Invalid,
    /// There was no memory.
    Memory,
}

/// How deep arrays and objects may nest.
const MAX_DEPTH: usize = 127;

/// A JSON text that was read: one value, which borrows from the text.
#[derive(Drop)]
pub struct Document<'a> {
    tape: Tape<'a>,
}

impl<'a> Model for Document<'a> {
    ghost use Rattle.std.specs.Prelude.{List, IsSome};
    ghost use Rattle.json.specs.Token.{Token, tokens_code};
    ghost use Rattle.sci_json.specs.View.{data_of};

    ghost Value = { List Token };

    ghost coded = { tokens_code };

    ghost view = { λ d. d.tape };

    ghost invariant = { λ d. IsSome (data_of d.tape) };
}

impl<'a> Document<'a> {
    /// Reads a text. Invalid where it is no UTF-8, or no JSON value. `scratch` takes the strings that have escapes. A text of more
    /// than 4 GB counts as one for which there is no memory.
    pub fn parse(
        alloc: Global,
        bytes: &'a [u8],
        scratch: &'a mut Scratch,
    ) -> Result<Document<'a>, ParseStop>
        ensures ok { IfOk result (λ d. IsUtf8 bytes.now × (read bytes.now ≡ Some (view d))) }
        ensures invalid { result ≡ Err ParseStop.Invalid → IsUtf8 bytes.now
            → read bytes.now ≡ None }
        ensures memory { result ≡ Err ParseStop.Memory → IsUtf8 bytes.now }
    {
        let Ok(text) = simdutf8::compat::from_utf8(bytes) else {
            return Err(ParseStop::Invalid);
        };
        let tape = match Tape::parse(text, scratch, Vec::new(alloc)) {
            Ok(tape) => tape,
            Err(json::Error::Invalid) => return Err(ParseStop::Invalid),
            // The keys are not compared: there was no memory, or the text is too long for a tape.
            Err(_) => return Err(ParseStop::Memory),
        };
        if is_readable(tape.nodes()) {
            Ok(Document { tape })
        } else {
            Err(ParseStop::Invalid)
        }
    }

    /// The value that the text is.
    #[inline]
    pub fn root(&self) -> Value<'_, 'a>
        ensures { view result ≡ view self.now }
    {
        Value::of(self.tape.root())
    }
}

// Whether the nodes of a value nest no deeper than a text may, and each number is in range.
fn is_readable(nodes: &[Node<'_>]) -> bool
    ensures { (j : Json) → map node_token nodes.now ≡ json_tokens j
        → result ≡ (nat_le (depth j) max_depth && is_some (of_json j)) }
{
    // How much deeper the rest may nest.
    let mut left = MAX_DEPTH;
    for node in nodes {
        match *node {
            Node::Object(_) | Node::Array(_) => {
                if left == 0 {
                    return false;
                }
                left -= 1;
            }
            Node::EndObject | Node::EndArray => left += 1,
            Node::Number(text) => {
                if !number::is_in_range(text) {
                    return false;
                }
            }
            Node::Key(_) | Node::String(_) | Node::Bool(_) | Node::Null => {}
        }
    }
    true
}
