ghost use Rattle.std.specs.Prelude.{◌≡◌, IfOk, false};
ghost use Rattle.dl_text.specs.Outcomes.{seen};
ghost use Rattle.owl_syntax.specs.Trees.{datatype_of};
ghost use Rattle.owl_read.specs.Items.{item_of};
ghost use Rattle.owl_read.specs.Literals.{undone, value_of, datatype_at, literal_at};
ghost use Rattle.owl_read.specs.Outcomes.{Gives};

use crate::nodes::line_of;
use crate::outcomes::{refusal_at, refused};
use crate::scope::Scope;
use dl_base::{Name, OutOfMemory, Value};
use dl_text::{ReadKind, ReadRefusal, canonical_value};
use owl_syntax::Node;
use std::alloc::{AllocError, Global};

/// The text without the backslashes of its escapes.
fn undone(alloc: Global, raw: &[u8]) -> Result<Vec<u8>, AllocError>
    ensures { IfOk result (λ text. text.items ≡ undone false raw.now) }
{
    let mut text = Vec::with_capacity(alloc, raw.len())?;
    let mut escaped = false;
    for byte in raw {
        if !escaped && *byte == b'\\' {
            escaped = true;
        } else {
            escaped = false;
            text.push(*byte)?;
        }
    }
    Ok(text)
}

impl Scope {
    /// The value of a literal with this raw text, the name of its datatype, empty where none is written, and its tag.
    fn value(
        &self,
        line: u64,
        raw: &[u8],
        datatype: &[u8],
        tag: &[u8],
    ) -> Result<Value, ReadRefusal>
        ensures { Gives self.now result (value_of self.now line raw.now datatype.now tag.now) }
    {
        let text = undone(self.alloc(), raw)?;
        match canonical_value(self.alloc(), text.as_slice(), datatype, tag) {
            Ok(value) => Ok(value),
            Err(fault) => Err(refusal_at(line, fault)),
        }
    }

    /// The name of the datatype that the node writes.
    #[tactic(auto, unfolding(crate::specs::Literals::datatype_at))]
    fn datatype(&self, line: u64, node: &Node<'_>) -> Result<Name, ReadRefusal>
        ensures { Gives self.now result (datatype_at self.now line (datatype_of node.now)) }
    {
        match node {
            Node::Iri { text, .. } => Ok(Name::of(self.alloc(), text)?),
            Node::Prefixed {
                line,
                prefix,
                local,
            } => self.resolved(*line, prefix, local),
            _ => Err(refused(line, ReadKind::Syntax)),
        }
    }

    /// The value at a place where nothing but a literal may stand.
    #[tactic(auto, unfolding(crate::specs::Literals::literal_at, crate::specs::Literals::datatype_at))]
    pub fn literal(&self, node: &Node<'_>) -> Result<Value, ReadRefusal>
        ensures { Gives self.now result (literal_at self.now (item_of node.now)) }
    {
        match node {
            Node::Literal {
                line,
                text,
                tag,
                datatype: None,
            } => self.value(*line, text, b"", tag),
            Node::Literal {
                line,
                text,
                tag,
                datatype: Some(datatype),
            } => {
                let name = self.datatype(*line, datatype)?;
                self.value(*line, text, name.as_slice(), tag)
            }
            _ => {
                self.name(ReadKind::Syntax, node)?;
                Err(refused(line_of(node), ReadKind::Syntax))
            }
        }
    }
}
