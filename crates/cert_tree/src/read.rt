//! The members of a certificate, as they are read.

ghost use Rattle.std.specs.Prelude.{◌≡◌, ◌<◌, length, OnOk};
ghost use Rattle.json_input.specs.Shape.{is_among, number_of};
ghost use Rattle.json_tokens.specs.Standing.{value_at};
ghost use Rattle.json_tokens.specs.Reads.{Reads, ReadsOr};
ghost use Rattle.cert_tree.specs.declared.cert_fault.CertFault.TheVariants.{Syntax, OutOfMemory};
ghost use Rattle.cert_tree.specs.KeptCert.{cert_names, cert_members, cert_members_seen, no_cert_members, with_cert_member, goals_of_members, goals_result_seen};

use crate::cert::CertGoal;
use crate::cert_fault::CertFault;
use crate::goal_list::{GoalsRead, read_goals};
use config_box::LocaleRule;
use json_tokens::{Kind, Malformed, Tokens};
use std::alloc::Global;

// The names of the members of a certificate.

const VERSION: &str = "version";

const GOALS: &str = "goals";

/// What stands at the members of a certificate.
#[derive(Drop)]
pub(crate) struct CertMembers {
    pub(crate) is_object: bool,
    /// No other member is there.
    pub(crate) only: bool,
    pub(crate) version: Option<u64>,
    pub(crate) goals: GoalsRead,
}

/// Reads the members of a certificate.
pub(crate) fn read_cert_members(
    tokens: &mut Tokens<'_>,
    alloc: Global,
    depth: usize,
    rule: LocaleRule,
) -> Result<CertMembers, CertFault>
    ensures { ReadsOr Syntax OutOfMemory cert_members_seen (cert_members rule) (value_at depth tokens.old) result tokens.new }
{
    let is_object = tokens.enter_object(depth)?;
    let mut members = CertMembers::none(is_object);
    if !is_object {
        return Ok(members);
    }
    'members: while let Some(name) = tokens.next_member()? {
        members.take(tokens, alloc, depth - 1, name, rule)?;
    }
    Ok(members)
}

impl CertMembers {
    // Of an object without members; or of another value.
    fn none(is_object: bool) -> CertMembers
        ensures { cert_members_seen result ≡ no_cert_members is_object }
    {
        CertMembers {
            is_object,
            only: is_object,
            version: None,
            goals: GoalsRead::missing(),
        }
    }

    // Reads the value of a member. One of the same name that was read before is forgotten.
    #[tactic(auto, unfolding(crate::specs::KeptCert::with_cert_member))]
    fn take(
        &mut self,
        tokens: &mut Tokens<'_>,
        alloc: Global,
        depth: usize,
        name: &str,
        rule: LocaleRule,
    ) -> Result<(), CertFault>
        ensures value { ReadsOr Syntax OutOfMemory (λ _. cert_members_seen self.new) (λ value. with_cert_member rule name.now value (cert_members_seen self.old)) (value_at depth tokens.old) result tokens.new }
        ensures shorter { OnOk result (length tokens.new < length tokens.old) }
    {
        self.only &= is_of_cert(name);
        if name == GOALS {
            self.goals = GoalsRead::missing();
            self.goals = read_goals(tokens, alloc, depth, rule)?;
            return Ok(());
        }
        if name == VERSION {
            self.version = read_number(tokens, depth)?;
            return Ok(());
        }
        tokens.pass(depth)?;
        Ok(())
    }

    /// The goals of these members.
    #[tactic(auto, unfolding(crate::specs::KeptCert::goals_of_members))]
    pub(crate) fn into_goals(self) -> Result<Vec<CertGoal>, CertFault>
        ensures { goals_result_seen result ≡ goals_of_members (cert_members_seen self) }
    {
        let CertMembers {
            is_object,
            only,
            version,
            goals,
        } = self;
        if !is_object {
            return Err(CertFault::Shape(0, 0));
        }
        let attributes = match version {
            Some(1) => false,
            Some(2) => true,
            _ => return Err(CertFault::Version),
        };
        if !only {
            return Err(CertFault::Shape(0, 0));
        }
        goals.into_goals(attributes)
    }
}

#[tactic(auto, unfolding(json_input::specs::Shape::is_among))]
fn is_of_cert(name: &str) -> bool
    ensures { result ≡ is_among cert_names name.now }
{
    name == VERSION || name == GOALS
}

// The number of a value, where it is one.
fn read_number(tokens: &mut Tokens<'_>, depth: usize) -> Result<Option<u64>, Malformed>
    ensures value { Reads (λ number. number) number_of (value_at depth tokens.old) result tokens.new }
    ensures shorter { OnOk result (length tokens.new < length tokens.old) }
{
    match tokens.kind(depth)? {
        Kind::Number(number) => Ok(Some(number)),
        _ => Ok(None),
    }
}
