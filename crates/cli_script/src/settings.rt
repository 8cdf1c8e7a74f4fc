//! What the settings of a script state: the flow, and the replies of its participants.
ghost use Rattle.std.specs.Prelude.{◌≡◌, [], List, OnOk};
ghost use Rattle.cli_script.specs.Settings.{AddsSetting, IsKeptOf, IsRepliesOf};
ghost use Rattle.cli_script.specs.Settings.{retries_or, stated_flow, stated_sessions};
ghost use Rattle.cli_script.specs.declared.line.Setting.{Setting as Stated};

use crate::line::Setting;
use crate::replies::Replies;
use flow_model::{Flow, Group};
use std::alloc::{AllocError, Global};
use sw_participant::Sequence;

/// The number of sessions if none is stated.
const SESSIONS: u64 = 2;

/// What is kept of settings.
#[derive(Drop)]
pub struct Settings {
    retries: Option<u64>,
    sessions: Option<u64>,
    groups: Vec<Group>,
    replies: Replies,
}

impl Settings {
    pub fn new(alloc: Global) -> Settings
        ensures { IsKeptOf [] result }
    {
        Settings {
            retries: None,
            sessions: None,
            groups: Vec::new(alloc),
            replies: Replies::new(alloc),
        }
    }

    /// Keeps one more setting.
    pub fn add(&mut self, setting: Setting) -> Result<(), AllocError>
        ensures { OnOk result (AddsSetting self.old setting self.new) }
    {
        match setting {
            Setting::Retries(retries) => self.retries = Some(retries),
            Setting::Sessions(sessions) => self.sessions = Some(sessions),
            Setting::Flow(group) => self.groups.push(group)?,
            Setting::Answer {
                participant,
                answer,
            } => self.replies.queue_answer(participant, answer)?,
            Setting::Choose { participant, text } => {
                self.replies.queue_choice(participant, text)?;
            }
            Setting::Advice { participant, body } => {
                self.replies.queue_advice(participant, body)?;
            }
            Setting::Restore { participant, puts } => {
                self.replies.queue_restore(participant, puts)?;
            }
        }
        Ok(())
    }

    /// The number of sessions; 2 if none is stated.
    pub fn sessions(&self) -> u64
        ensures { (ss : List Stated) → IsKeptOf ss self.now → result ≡ stated_sessions ss }
    {
        self.sessions.unwrap_or(SESSIONS)
    }

    /// The flow that the settings state, over that of a flow file if there is one, and the replies.
    /// The flow is not checked.
    pub fn into_parts(self, file: Option<Flow>) -> (Flow, Replies)
        ensures flow { (ss : List Stated) → IsKeptOf ss self → result.0 ≡ stated_flow file ss }
        ensures replies { (ss : List Stated) → IsKeptOf ss self → IsRepliesOf ss result.1 }
    {
        let Settings {
            retries,
            sessions: _,
            groups,
            replies,
        } = self;
        let flow = match file {
            Some(flow) => Flow {
                retries: retries_or(flow.retries, retries),
                groups: flow.groups,
            },
            None => Flow {
                retries: retries_or(0, retries),
                groups: Sequence::new(groups),
            },
        };
        (flow, replies)
    }
}

/// The retries that are stated, or else the default. A number over 255 is kept as 255, which a flow
/// may not have either.
fn retries_or(default: u8, stated: Option<u64>) -> u8
    ensures { result ≡ retries_or default stated }
{
    match stated {
        Some(retries) => u8::try_from(retries).unwrap_or(u8::MAX),
        None => default,
    }
}
