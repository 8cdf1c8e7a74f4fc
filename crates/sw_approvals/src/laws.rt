//! The law of approvals.

ghost use Rattle.std.specs.Prelude.{Bool, List, false};
ghost use Rattle.flow_model.specs.declared.flow.Flow.{Flow};
ghost use Rattle.flow_model.specs.declared.flow.Group.{Group};
ghost use Rattle.flow_model.specs.declared.flow.Entry.{Entry};
ghost use Rattle.sw_rules.specs.Checked.{IsSetUpChecked};
ghost use Rattle.sw_rules.specs.declared.set_up.SetUp.{SetUp};
ghost use Rattle.sw_approvals.specs.Flows.{AreInForce, AreQueries, AreStops, IsMain, IsWayThrough};
ghost use Rattle.iso_msg.specs.Messages.{PlainMessage};
ghost use Rattle.sw_context.specs.Pairs.{Pairs};
ghost use Rattle.sw_approvals.specs.Ways.{Goes, HaveRoom, IsApproved, IsOpenAuthorization};
ghost use Rattle.sw_approvals.specs.Ways.{IsSoundWay, PreparedCall, SomeApproves, Stop};

use sw_parts::{Link, Memory};

/// An authorization on whose way a host is asked gets a response with 00 only if a call of that way approved it: a host was
/// sent the request and answered 00, or no answer came and the stand-in decided. This holds of all calls that prepare a
/// request, also while its transaction aborts, over links of any type.
///
/// The way has to check the request before it asks the host, and to come to a stand-in after it if the host needs one
/// (`IsSoundWay`); nobody has decided when it begins; and the contexts have room for notes, of which a request has seven at
/// most.
pub fn approvals_are_said<L: Link, M: Memory>()
    ensures { (way : List Stop) (x : Pairs) (calls : List PreparedCall) (aborting : Bool)
        (z : Pairs) (m : PlainMessage) → IsSoundWay way → IsOpenAuthorization x
        → HaveRoom calls
        → Goes L.sends L.receives L.starves M.refused way false x calls aborting z
        → IsApproved m aborting z
        → SomeApproves L.sends L.receives L.starves M.refused calls }
{}

/// In a checked set-up each way of an authorization is one on which it is not approved by silence. So, together with
/// [`approvals_are_said`], an authorization is answered with 00 only if its host's answer, or the stand-in, said so. The rules
/// `no-check`, `no-stand-in`, `no-query` and `unknown-group` have to be in force, and the names of queries have to be other
/// than those of the switch's other participants, as `query_NAME` is.
pub fn checked_ways_are_sound()
    ensures { (f : Flow) (s : SetUp) (main : Group) (es : List Entry) (way : List Stop)
        → IsSetUpChecked f s → AreInForce s → AreQueries s → IsMain f main
        → IsWayThrough f s es → AreStops s es way → IsSoundWay way }
{}
