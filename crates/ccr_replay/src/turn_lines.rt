//! A text of turn lines, line by line.

ghost use Rattle.std.specs.Prelude.{◌≡◌, ◌<◌, ◌≤◌, ◌++◌, length, IfOk, IfErr, OnOk, option_to_list};
ghost use Rattle.std.specs.List.{All};
ghost use Rattle.ccr_base.specs.Bounds.{most_bytes};
ghost use Rattle.ccr_wiretext.specs.Answers.{IsReading};
ghost use Rattle.ccr_replay.specs.Answers.{TurnsSayNothing};
ghost use Rattle.ccr_replay.specs.Turns.{most_lines_before, reading_turns};
ghost use Rattle.ccr_replay.specs.TurnGrammar.{Says};

use crate::refusals::refused;
use crate::turns::turn_on;
use ccr_base::{ActorNo, List, OutOfMemory};
use ccr_text::{numbered_line, split_line};
use ccr_wiretext::ReadRefused;
use std::alloc::Global;

/// Adds the turn that a line says, if it says one.
fn add(turns: &mut List<ActorNo>, turn: Option<ActorNo>) -> Result<(), OutOfMemory>
    ensures { OnOk result (turns.new ≡ turns.old ++ option_to_list turn) }
{
    match turn {
        Some(actor) => turns.push(actor).map_err(|refused| refused.0),
        None => Ok(()),
    }
}

fn read_lines(
    alloc: Global,
    text: &[u8],
    lines_before: u32,
    actors: u32,
) -> Result<List<ActorNo>, ReadRefused>
    requires text { length text.now ≤ most_bytes }
    requires before { lines_before ≤ most_lines_before }
    ensures { IsReading result (reading_turns text.now lines_before actors) }
{
    let mut turns = List::new(alloc);
    let mut rest = text;
    let mut number = lines_before;
    'lines: while !rest.is_empty() {
        let (bytes, after) = split_line(rest);
        number += 1;
        let Ok(line) = numbered_line(alloc, number, bytes) else {
            return Err(ReadRefused::Memory);
        };
        match turn_on(&line, actors) {
            Err(code) => return Err(refused(number, code)),
            Ok(turn) => {
                if add(&mut turns, turn).is_err() {
                    return Err(ReadRefused::Memory);
                }
            }
        }
        rest = after.unwrap_or(&[]);
    }
    Ok(turns)
}

/// The actors whose turns the lines of a text say, in order; or the first offending line, counted on from so many lines
/// before the text, and its code (docs/FORMATS.md). Actors are numbered from 0, and there are so many. One pass.
pub fn read_turns(
    alloc: Global,
    text: &[u8],
    lines_before: u32,
    actors: u32,
) -> Result<List<ActorNo>, ReadRefused>
    requires text { length text.now ≤ most_bytes }
    requires before { lines_before ≤ most_lines_before }
    ensures reading { IsReading result (reading_turns text.now lines_before actors) }
    ensures below { IfOk result (λ turns. All (λ actor. actor < actors) turns) }
    ensures grammar { IfOk result (λ turns. Says text.now actors turns) }
    ensures refused { IfErr result (λ refused. TurnsSayNothing text.now actors refused) }
{
    read_lines(alloc, text, lines_before, actors)
}
