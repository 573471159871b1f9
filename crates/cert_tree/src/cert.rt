//! Certificates.

ghost use Rattle.std.specs.Prelude.{◌≡◌, Ok, IfOk};
ghost use Rattle.contract_words.specs.Exact.{GivesOr};
ghost use Rattle.serde_json.specs.Written.{compact_text};
ghost use Rattle.cert_tree.specs.declared.cert_fault.CertFault.TheVariants.{OutOfMemory};

use crate::cert_fault::CertFault;
use crate::node::Node;
use crate::read::read_cert_members;
use crate::write::cert_value;
use config_box::LocaleRule;
use json_tokens::{MOST_DEPTH, Scratch, Tokens};
use res_value::Goal;
use std::alloc::{AllocError, Global};

/// What a call answers where memory runs out.
pub type OutOfMemory = AllocError;

/// Goals with their trees.
#[derive(Drop)]
pub struct Cert {
    pub goals: Vec<CertGoal>,
}

/// A goal with its tree: the list of its nodes.
#[derive(Drop)]
pub struct CertGoal {
    pub goal: Goal,
    pub nodes: Vec<Node>,
}

impl Cert {
    ghost use Rattle.cert_tree.specs.Certificate.{goals_of, CertFits};
    ghost use Rattle.cert_tree.specs.CertJson.{cert_in, cert_in_by};
    ghost use Rattle.config_box.specs.config_record.locales.declared.locale_rule.LocaleRule as locale_rule;
    ghost use Rattle.cert_tree.specs.WrittenJson.{cert_data};

    /// The certificate of a JSON text.
    pub fn read(alloc: Global, json: &[u8]) -> Result<Cert, CertFault>
        ensures { GivesOr OutOfMemory goals_of result (cert_in json.now) }
    {
        Cert::read_by(alloc, json, LocaleRule::LanguageAndRegion)
    }

    /// The same, where the texts of locales are read by a rule. A certificate does not say by which it was made.
    pub fn read_by(alloc: Global, json: &[u8], rule: LocaleRule) -> Result<Cert, CertFault>
        ensures { GivesOr OutOfMemory goals_of result (cert_in_by rule json.now) }
    {
        let mut scratch = Scratch::new(alloc);
        let mut tokens = Tokens::of(json, &mut scratch)?;
        let members = read_cert_members(&mut tokens, alloc, MOST_DEPTH, rule)?;
        tokens.end()?;
        let goals = members.into_goals()?;
        Ok(Cert { goals })
    }

    /// The certificate as compact JSON, without an end of line. The members of each object stand in
    /// the order of their names' bytes.
    pub fn write(&self, alloc: Global) -> Result<Vec<u8>, OutOfMemory>
        ensures text { IfOk result (λ bytes. bytes.items ≡ compact_text (cert_data (goals_of self.now))) }

        // What is written is read as the same goals and nodes, by the rule of its locales.
        ensures reads_back { IfOk result (λ bytes. (rule : locale_rule.LocaleRule) → CertFits rule (goals_of self.now) → cert_in_by rule bytes.items ≡ Ok (goals_of self.now)) }
    {
        let value = cert_value(alloc, self)?;
        let bytes = value.to_vec(alloc)?;
        Ok(bytes)
    }
}
