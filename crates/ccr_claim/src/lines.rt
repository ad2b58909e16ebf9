//! A poster's script, line by line.

ghost use Rattle.std.specs.Prelude.{◌≡◌, ◌∷◌, [], ◌<◌, ◌+◌, ◌^◌, drop, length, MatchOption};
ghost use Rattle.ccr_claim.specs.Lines.{line_ask, IsLineOf};

use crate::{Ask, Asked};
use ccr_base::{ActorNo, CauseNo, List, Msg, MsgId, Place};
use ccr_wiring::ScriptPost;
use std::marker::Model;

/// The lines of a script that are left to be posted.
#[derive(Drop)]
pub struct Lines<'w> {
    script: &'w [ScriptPost],
    /// That of the next line: how many are posted.
    index: u32,
}

impl<'w> Model for Lines<'w> {
    ghost use Rattle.std.specs.Prelude.{drop};
    ghost use Rattle.ccr_claim.specs.Lines.{LinesLeft};

    ghost Value = { LinesLeft };

    ghost view = { λ lines. record { index = lines.index; left = drop lines.index lines.script.now } };
}

impl<'w> Lines<'w> {
    /// All lines of the script.
    pub fn of(script: &'w [ScriptPost]) -> Lines<'w>
        ensures { result ≡ record { index = 0; left = script.now } }
    {
        Lines { script, index: 0 }
    }

    /// The index of the next line: how many are posted.
    pub fn index(&self) -> u32
        ensures { result ≡ self.now.index }
    {
        self.index
    }

    /// The next line.
    pub fn next(&self) -> Option<&'w ScriptPost>
        ensures { MatchOption result (self.now.left ≡ []) (λ post. self.now.left ≡ post.now ∷ drop 1 self.now.left) }
    {
        self.script.get(self.index as usize)
    }

    /// Moves out the post of the next line, with these causes; where no line is left the poster leaves.
    pub fn ask(&self, number: ActorNo, causes: &mut Option<List<CauseNo>>) -> Asked
        requires { IsLineOf self.now.left causes.old }
        ensures { result ≡ line_ask number self.now.index self.now.left }
    {
        let Some(sent) = self.next() else {
            return Asked {
                place: Place::Meter,
                ask: Ask::Leave,
            };
        };
        let Some(causes) = causes.take() else {
            unreachable!();
        };
        Asked {
            place: Place::Port(sent.port()),
            ask: Ask::Post(Msg {
                id: MsgId::Script {
                    actor: number,
                    place: self.index(),
                },
                port: sent.port(),
                value: sent.value(),
                causes,
            }),
        }
    }

    /// The lines behind the next one.
    pub fn behind(self) -> Lines<'w>
        requires line { 0 < length self.left }
        requires few { self.index + length self.left < 2 ^ 32 }
        ensures { result ≡ record { index = self.entry.index + 1; left = drop 1 self.entry.left } }
    {
        Lines {
            script: self.script,
            index: self.index + 1,
        }
    }
}
