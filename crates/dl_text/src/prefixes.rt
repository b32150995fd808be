ghost use Rattle.std.specs.Prelude.{◌≡◌, [], ◌++◌, IfOk, OnOk, OnErr};
ghost use Rattle.std.specs.Option.{option_copied};
ghost use Rattle.dl_text.specs.Outcomes.{NamesIri};

use crate::escapes::{Escapes, undo};
use crate::faults::TextFault;
use crate::namespaces::{owl_namespace, rdf_namespace, rdfs_namespace, xsd_namespace};
use crate::reading::iri_name;
use dl_base::{Name, OutOfMemory};
use std::alloc::Global;
use std::collections::BTreeMap;
use std::marker::Model;

/// Prefixes and the IRIs that they stand for. Contracts see each prefix, without its colon, with its IRI, in the order of the prefixes.
#[derive(Drop)]
pub struct Prefixes {
    alloc: Global,
    iris: BTreeMap<Vec<u8>, Name>,
}

impl Model for Prefixes {
    ghost use Rattle.std.specs.Prelude.{ℕ, List, map};

    ghost Value = { List (List ℕ × List ℕ) };

    ghost view = { λ p. map (λ e. (e.0.items, e.1)) p.iris.entries };
}

impl Prefixes {
    ghost use Rattle.dl_text.specs.Prefixes.{iri_of, with_prefix, standard_prefixes, Resolves};

    /// No prefixes.
    pub fn none(alloc: Global) -> Prefixes
        ensures { result ≡ [] }
    {
        Prefixes {
            alloc,
            iris: BTreeMap::new(alloc),
        }
    }

    /// `rdf`, `rdfs`, `xsd` and `owl`.
    pub fn standard(alloc: Global) -> Result<Prefixes, OutOfMemory>
        ensures { IfOk result (λ prefixes. prefixes ≡ standard_prefixes) }
    {
        let mut prefixes = Prefixes::none(alloc);
        prefixes.add(b"rdf", rdf_namespace())?;
        prefixes.add(b"rdfs", rdfs_namespace())?;
        prefixes.add(b"xsd", xsd_namespace())?;
        prefixes.add(b"owl", owl_namespace())?;
        Ok(prefixes)
    }

    fn add(&mut self, prefix: &[u8], iri: &[u8]) -> Result<(), OutOfMemory>
        ensures { OnOk result (self.new ≡ with_prefix self.old prefix.now iri.now) }
    {
        let iri = Name::of(self.alloc, iri)?;
        self.set(prefix, &iri)
    }

    /// From now on the prefix stands for this IRI, whatever it stood for before.
    pub fn set(&mut self, prefix: &[u8], iri: &Name) -> Result<(), OutOfMemory>
        ensures ok { OnOk result (self.new ≡ with_prefix self.old prefix.now iri.now) }
        ensures err { OnErr result (self.new ≡ self.old) }
    {
        let key = Vec::from_slice(self.alloc, prefix)?;
        let iri = iri.copy(self.alloc)?;
        self.iris.insert(key, iri)?;
        Ok(())
    }

    fn iri(&self, prefix: &[u8]) -> Option<&Name>
        ensures { option_copied result ≡ iri_of self.now prefix.now }
    {
        self.iris.get(prefix)
    }

    /// The name of `prefix:local`: the prefix's IRI and then the local part, with `\` undone where `escapes` says so.
    /// `UnknownPrefix`, then `BadEscape`, `BadIri` and `NameTooLong`.
    pub fn resolve(&self, prefix: &[u8], local: &[u8], escapes: bool) -> Result<Name, TextFault>
        ensures { Resolves self.now prefix.now local.now escapes result }
    {
        let Some(iri) = self.iri(prefix) else {
            return Err(TextFault::UnknownPrefix);
        };
        if !escapes {
            return joined_name(self.alloc, iri.as_slice(), local);
        }
        let local = undo(self.alloc, local, Escapes::Local)?;
        joined_name(self.alloc, iri.as_slice(), local.as_slice())
    }
}

/// The name of an IRI in two parts.
fn joined_name(alloc: Global, front: &[u8], back: &[u8]) -> Result<Name, TextFault>
    ensures { NamesIri (front.now ++ back.now) result }
{
    let mut text = Vec::from_slice(alloc, front)?;
    text.extend_from_slice(back)?;
    iri_name(alloc, text.as_slice())
}
