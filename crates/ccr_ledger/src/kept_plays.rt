//! The play of a task, in few bytes: most post one number or nothing, end so, and have no causes.

ghost use Rattle.std.specs.Prelude.{◌≡◌, [], ◌∷◌, IfOk, IfSome, length};
ghost use Rattle.std.specs.List.{slice_get};
ghost use Rattle.std.specs.Option.{option_map};
ghost use Rattle.ccr_ledger.specs.Compact.{play_kept, sent_of};

use ccr_base::{CauseNo, List, OutOfMemory, PortNo, Sent, Value};
use ccr_handler::{Play, PlayEnd};
use std::alloc::Global;
use std::marker::Model;

/// How it is kept.
#[derive(Drop)]
enum CompactPlay {
    /// It posts nothing.
    Idle,
    /// It posts this number alone to the port.
    One { number: u64, port: PortNo },
    Full(Box<Play>),
}

/// A play; contracts see it as such.
#[derive(Drop)]
pub struct KeptPlay {
    compact: CompactPlay,
}

impl Model for KeptPlay {
    ghost use Rattle.ccr_handler.specs.declared.segments.Play.{Play};
    ghost use Rattle.ccr_ledger.specs.Compact.{play_kept};

    ghost Value = { Play };

    ghost view = { λ kept. play_kept kept.compact };
}

/// A post of a play, as it will be sent.
#[derive(Clone, Copy)]
pub struct PostOf<'a> {
    pub port: PortNo,
    pub value: Value,
    pub causes: &'a [CauseNo],
}

/// The one number of a post without causes.
fn number_of(sent: &Sent) -> Option<u64>
    ensures { IfSome result (λ number. sent.now ≡ record { port = sent.now.port; value = number ∷ []; causes = [] }) }
{
    match (sent.value.numbers(), sent.causes.as_slice()) {
        ([number], []) => Some(*number),
        _ => None,
    }
}

/// How a play is kept that posts at most one number, and neither fails nor yields nor has causes.
fn short(play: &Play) -> Option<CompactPlay>
    ensures { IfSome result (λ compact. play_kept compact ≡ play.now) }
{
    if play.end != PlayEnd::Done || !play.causes.is_empty() {
        return None;
    }
    match play.posts.as_slice() {
        [] => Some(CompactPlay::Idle),
        [sent] => Some(CompactPlay::One {
            number: number_of(sent)?,
            port: sent.port,
        }),
        _ => None,
    }
}

/// The play in no more memory than its posts need.
fn fitted(play: Play) -> Play
    ensures { result ≡ play }
{
    let Play { posts, end, causes } = play;
    let mut posts = posts.into_vec();
    posts.shrink_to_fit();
    Play {
        posts: List::from_vec(posts),
        end,
        causes,
    }
}

impl KeptPlay {
    /// The play in few bytes.
    pub(crate) fn of(alloc: Global, play: Play) -> Result<Self, OutOfMemory>
        ensures { IfOk result (λ kept. kept ≡ play) }
    {
        let compact = match short(&play) {
            Some(compact) => compact,
            None => CompactPlay::Full(Box::new(alloc, fitted(play))?),
        };
        Ok(KeptPlay { compact })
    }

    /// How many posts it has.
    pub fn len(&self) -> usize
        ensures { result ≡ length self.now.posts }
    {
        match &self.compact {
            CompactPlay::Idle => 0,
            CompactPlay::One { .. } => 1,
            CompactPlay::Full(play) => play.posts.len(),
        }
    }

    /// The post at the index, from 0.
    pub fn post(&self, index: usize) -> Option<PostOf<'_>>
        ensures { option_map sent_of result ≡ slice_get self.now.posts index }
    {
        match &self.compact {
            CompactPlay::Idle => None,
            CompactPlay::One { number, port } => {
                if index != 0 {
                    return None;
                }
                Some(PostOf {
                    port: *port,
                    value: Value::one(*number),
                    causes: &[],
                })
            }
            CompactPlay::Full(play) => {
                let sent = play.posts.as_slice().get(index)?;
                Some(PostOf {
                    port: sent.port,
                    value: sent.value,
                    causes: sent.causes.as_slice(),
                })
            }
        }
    }

    /// How it ends.
    pub fn end(&self) -> PlayEnd
        ensures { result ≡ self.now.end }
    {
        match &self.compact {
            CompactPlay::Full(play) => play.end,
            _ => PlayEnd::Done,
        }
    }

    /// Its causes at the end.
    pub fn own_causes(&self) -> &[CauseNo]
        ensures { result.now ≡ self.now.causes }
    {
        match &self.compact {
            CompactPlay::Full(play) => play.causes.as_slice(),
            _ => &[],
        }
    }

    /// Its causes at the end, as a list of their own.
    pub(crate) fn causes(&self, alloc: Global) -> Result<List<CauseNo>, OutOfMemory>
        ensures { IfOk result (λ causes. causes ≡ self.now.causes) }
    {
        match &self.compact {
            CompactPlay::Full(play) => play.causes.copy(alloc),
            _ => Ok(List::new(alloc)),
        }
    }
}
