//! Members of nodes by their kinds. A member of another shape than asked for has the fault that the caller names.

ghost use Rattle.std.specs.Prelude.{◌≡◌, ◌≤◌, bytes_eq, find, IfOk};
ghost use Rattle.std.specs.Option.{option_map};
ghost use Rattle.json_tokens.specs.Kind.{kind_seen};
ghost use Rattle.config_box.specs.config_record.Coord.{name_of};
ghost use Rattle.cert_tree.specs.CertJson.{coord_named};
ghost use Rattle.cert_tree.specs.NodeKinds.{number_kind, coord_kind, id_kind};

use crate::cert_fault::CertFault;
use config_box::Coord;
use json_tokens::Kind;
use res_value::ResId;

/// The number of a member, where it is at most this.
#[tactic(auto, unfolding(crate::specs::NodeKinds::number_kind))]
pub(crate) fn number_within(
    member: Option<Kind<'_>>,
    most: u64,
    shape: CertFault,
) -> Result<u64, CertFault>
    ensures value { result ≡ number_kind shape most (option_map kind_seen member.entry) }
    ensures within { IfOk result (λ number. number ≤ most) }
{
    match member {
        Some(Kind::Number(number)) if number <= most => Ok(number),
        _ => Err(shape),
    }
}

/// The id that the text of a member spells.
#[tactic(auto, unfolding(crate::specs::NodeKinds::id_kind))]
pub(crate) fn id_in(member: Option<Kind<'_>>, shape: CertFault) -> Result<ResId, CertFault>
    ensures { result ≡ id_kind shape (option_map kind_seen member.entry) }
{
    match member {
        Some(Kind::Text(text)) => ResId::read(text).ok_or(shape),
        _ => Err(shape),
    }
}

/// The coordinate that a member names.
#[tactic(auto, unfolding(crate::specs::NodeKinds::coord_kind))]
pub(crate) fn coord_in(member: Option<Kind<'_>>, shape: CertFault) -> Result<Coord, CertFault>
    ensures { result ≡ coord_kind shape (option_map kind_seen member.entry) }
{
    match member {
        Some(Kind::Text(name)) => coord_named(name).ok_or(shape),
        _ => Err(shape),
    }
}

#[tactic(auto, unfolding(crate::specs::CertJson::coord_named, crate::specs::Unfolded::all_coords))]
fn coord_named(name: &str) -> Option<Coord>
    ensures { result ≡ coord_named name.now }
{
    first_named(&Coord::ALL, name)
}

fn first_named(coords: &[Coord], name: &str) -> Option<Coord>
    ensures { result ≡ find (λ c. bytes_eq (name_of c) name.now) coords.now }
{
    coords.iter().copied().find(|coord| coord.name() == name)
}
