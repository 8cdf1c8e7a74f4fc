//! The switch without a configuration: two issuers, alpha and beta.

ghost use Rattle.std.specs.Prelude.{◌≡◌, ◌∷◌, [], IfOk, codes, map, true};
ghost use Rattle.run_switch.specs.Links.{link_names, routing, sender_of, sender_with, switch_routes};

use crate::setup::NamedLink;
use std::alloc::{AllocError, Global};
use sw_issuers::GroupLink;
use sw_participant::{Sequence, Text};
use sw_parts::{Link, Routing};

/// The greatest amount that is stood in for, in minor units.
pub const DEFAULT_STAND_IN: u64 = 1_000;

fn routing(alloc: Global, prefix: &str, group: &str) -> Result<Routing, AllocError>
    ensures { IfOk result (λ r. r ≡ routing prefix.now group.now) }
{
    Ok(Routing {
        prefix: Text::from_str(alloc, prefix)?,
        group: Text::from_str(alloc, group)?,
    })
}

/// Cards that begin with 4 go to the group `alpha`, those with 5 to `beta`, and those with 55 to `alpha`.
pub fn default_routes(alloc: Global) -> Result<Sequence<Routing>, AllocError>
    ensures { IfOk result (λ routes. routes ≡ switch_routes) }
{
    let mut routes = Vec::new(alloc);
    routes.push(routing(alloc, "4", "alpha")?)?;
    routes.push(routing(alloc, "5", "beta")?)?;
    routes.push(routing(alloc, "55", "alpha")?)?;
    Ok(Sequence::new(routes))
}

/// The links of the participants `query_alpha` and `query_beta`.
pub fn default_queried<L: Link>(
    alloc: Global,
    alpha: L,
    beta: L,
) -> Result<Vec<NamedLink<L>>, AllocError>
    ensures names { IfOk result (λ links.
        link_names links.items ≡ codes "alpha" ∷ codes "beta" ∷ []) }
    ensures links { IfOk result (λ links.
        map (λ l. l.link) links.items ≡ alpha ∷ beta ∷ []) }
    ensures stand_in { IfOk result (λ links.
        map (λ l. l.has_stand_in) links.items ≡ true ∷ true ∷ []) }
{
    let mut links = Vec::new(alloc);
    links.push(NamedLink {
        name: Text::from_str(alloc, "alpha")?,
        link: alpha,
        has_stand_in: true,
    })?;
    links.push(NamedLink {
        name: Text::from_str(alloc, "beta")?,
        link: beta,
        has_stand_in: true,
    })?;
    Ok(links)
}

/// The links that stored advices go over, for the groups `alpha` and `beta`.
pub fn default_advised<L: Link>(
    alloc: Global,
    alpha: L,
    beta: L,
) -> Result<Vec<GroupLink<L>>, AllocError>
    ensures { IfOk result (λ links. sender_with L.state switch_routes links.items
        ≡ sender_of (L.state alpha) (L.state beta)) }
{
    let mut links = Vec::new(alloc);
    links.push(GroupLink {
        group: Text::from_str(alloc, "alpha")?,
        link: alpha,
    })?;
    links.push(GroupLink {
        group: Text::from_str(alloc, "beta")?,
        link: beta,
    })?;
    Ok(links)
}
