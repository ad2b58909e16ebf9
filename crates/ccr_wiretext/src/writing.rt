//! The canonical text, line by line.

ghost use Rattle.std.specs.Prelude.{◌≡◌, ◌++◌, [], ◌∷◌, true, OnOk, IfOk, map, flat_map};
ghost use Rattle.ccr_wiring.specs.Openness.{is_closed};
ghost use Rattle.ccr_text.specs.Spelling.{line_text, text_of};
ghost use Rattle.std.specs.List.{All};
ghost use Rattle.ccr_wiretext.specs.Reading.{reading_text};
ghost use Rattle.ccr_wiretext.specs.Values.{IsValue, IsActionValued, IsHandlerValued, IsPatternValued, IsArbiterValued, IsPosterValued, IsValued};
ghost use Rattle.ccr_wiretext.specs.Spelling.{version_words, budget_words, queue_words, port_words, set_words, cause_words, action_words, end_words, handler_lines, branch_words, combine_words, block_lines, arbiter_lines, post_words, poster_lines, queue_lines, port_lines, acting_lines, spelling};

use crate::laws::what_is_written_is_read;
use crate::words::LineWords;
use ccr_base::{Action, List, Name, OutOfMemory};
use ccr_wiring::{
    ArbiterPart, BranchPart, CausePart, DomainPart, HandlerPart, Kind, Parts, PosterPart,
    QueuePart, ScriptPost, SetPart, Wiring,
};
use std::alloc::Global;

/// The text so far.
type Text = Vec<u8>;

/// Adds a line of these words, with single spaces and LF.
#[tactic(auto, using(crate::proofs::Written::line_put))]
fn put_words(out: &mut Text, first: &Name, others: &[Name]) -> Result<(), OutOfMemory>
    ensures { OnOk result (out.new.items ≡ out.old.items ++ line_text (first.now ∷ others.now)) }
{
    out.extend_from_slice(first.as_slice())?;
    put_spaced(out, others)?;
    out.push(b'\n')?;
    Ok(())
}

fn put_line(out: &mut Text, words: &[Name]) -> Result<(), OutOfMemory>
    ensures { OnOk result (out.new.items ≡ out.old.items ++ line_text words.now) }
{
    match words.split_first() {
        Some((first, others)) => put_words(out, first, others),
        None => {
            out.push(b'\n')?;
            Ok(())
        }
    }
}

/// What follows the first word of a line, up to its LF.
pub fn put_spaced(out: &mut Text, words: &[Name]) -> Result<(), OutOfMemory>
    ensures { OnOk result (out.new.items ≡ out.old.items ++ flat_map (λ word. 32 ∷ word) words.now) }
{
    for word in words {
        out.push(b' ')?;
        out.extend_from_slice(word.as_slice())?;
    }
    Ok(())
}

fn put_named(alloc: Global, out: &mut Text, first: &str, name: &Name) -> Result<(), OutOfMemory>
    ensures { OnOk result (out.new.items ≡ out.old.items ++ line_text (first.now ∷ name.now ∷ [])) }
{
    let mut line = LineWords::new(alloc);
    line.word_and_name(first, name.as_slice())?;
    put_line(out, line.as_slice())
}

fn put_end(alloc: Global, out: &mut Text) -> Result<(), OutOfMemory>
    ensures { OnOk result (out.new.items ≡ out.old.items ++ line_text end_words) }
{
    let mut line = LineWords::new(alloc);
    line.end()?;
    put_line(out, line.as_slice())
}

fn put_budget(alloc: Global, out: &mut Text, budget: u32) -> Result<(), OutOfMemory>
    ensures { OnOk result (out.new.items ≡ out.old.items ++ line_text (budget_words budget)) }
{
    let mut line = LineWords::new(alloc);
    line.budget(budget)?;
    put_line(out, line.as_slice())
}

fn put_queues(alloc: Global, out: &mut Text, queues: &[QueuePart]) -> Result<(), OutOfMemory>
    ensures { OnOk result (out.new.items ≡ out.old.items ++ text_of (map queue_words queues.now)) }
{
    for part in queues {
        let mut line = LineWords::new(alloc);
        line.queue(part)?;
        put_line(out, line.as_slice())?;
    }
    Ok(())
}

fn put_ports(alloc: Global, out: &mut Text, ports: &[Name]) -> Result<(), OutOfMemory>
    ensures { OnOk result (out.new.items ≡ out.old.items ++ text_of (map port_words ports.now)) }
{
    for name in ports {
        put_named(alloc, out, "port", name)?;
    }
    Ok(())
}

fn put_sets(
    alloc: Global,
    out: &mut Text,
    parts: &Parts,
    sets: &[SetPart],
) -> Result<(), OutOfMemory>
    ensures { OnOk result (out.new.items ≡ out.old.items ++ text_of (map (set_words parts.now) sets.now)) }
{
    for part in sets {
        let mut line = LineWords::new(alloc);
        line.set(parts, part)?;
        put_line(out, line.as_slice())?;
    }
    Ok(())
}

fn put_causes(
    alloc: Global,
    out: &mut Text,
    parts: &Parts,
    causes: &[CausePart],
) -> Result<(), OutOfMemory>
    ensures { OnOk result (out.new.items ≡ out.old.items ++ text_of (map (cause_words parts.now) causes.now)) }
{
    for part in causes {
        let mut line = LineWords::new(alloc);
        line.cause(parts, part)?;
        put_line(out, line.as_slice())?;
    }
    Ok(())
}

fn put_actions(
    alloc: Global,
    out: &mut Text,
    parts: &Parts,
    actions: &[Action],
) -> Result<(), OutOfMemory>
    ensures text { OnOk result (out.new.items ≡ out.old.items ++ text_of (map (action_words parts.now) actions.now)) }
    ensures valued { OnOk result (All IsActionValued actions.now) }
{
    for action in actions {
        let mut line = LineWords::new(alloc);
        line.action(parts, action)?;
        put_line(out, line.as_slice())?;
    }
    Ok(())
}

fn put_handler(
    alloc: Global,
    out: &mut Text,
    parts: &Parts,
    part: &HandlerPart,
) -> Result<(), OutOfMemory>
    ensures text { OnOk result (out.new.items ≡ out.old.items ++ text_of (handler_lines parts.now part.now)) }
    ensures valued { OnOk result (IsHandlerValued part.now) }
{
    put_named(alloc, out, "handler", &part.name)?;
    put_actions(alloc, out, parts, part.handler.actions.as_slice())?;
    put_end(alloc, out)
}

fn put_handlers(
    alloc: Global,
    out: &mut Text,
    parts: &Parts,
    handlers: &[HandlerPart],
) -> Result<(), OutOfMemory>
    ensures text { OnOk result (out.new.items ≡ out.old.items ++ text_of (flat_map (handler_lines parts.now) handlers.now)) }
    ensures valued { OnOk result (All IsHandlerValued handlers.now) }
{
    for part in handlers {
        put_handler(alloc, out, parts, part)?;
    }
    Ok(())
}

fn put_branches(
    alloc: Global,
    out: &mut Text,
    parts: &Parts,
    branches: &[BranchPart],
) -> Result<(), OutOfMemory>
    ensures text { OnOk result (out.new.items ≡ out.old.items ++ text_of (map (branch_words parts.now) branches.now)) }
    ensures valued { OnOk result (All (λ branch. IsPatternValued branch.pattern) branches.now) }
{
    for branch in branches {
        let mut line = LineWords::new(alloc);
        line.branch(parts, branch)?;
        put_line(out, line.as_slice())?;
    }
    Ok(())
}

/// The branches of a choice or Interleave, in a block of its own.
fn put_block(
    alloc: Global,
    out: &mut Text,
    parts: &Parts,
    first: &str,
    part: &ArbiterPart,
) -> Result<(), OutOfMemory>
    ensures text { OnOk result (out.new.items ≡ out.old.items ++ text_of (block_lines parts.now first.now part.now)) }
    ensures valued { OnOk result (IsArbiterValued part.now) }
{
    put_named(alloc, out, first, &part.name)?;
    put_branches(alloc, out, parts, part.branches.as_slice())?;
    put_end(alloc, out)
}

fn put_arbiter(
    alloc: Global,
    out: &mut Text,
    parts: &Parts,
    part: &ArbiterPart,
) -> Result<(), OutOfMemory>
    ensures text { OnOk result (out.new.items ≡ out.old.items ++ text_of (arbiter_lines parts.now part.now)) }
    ensures valued { OnOk result (IsArbiterValued part.now) }
{
    match part.kind {
        Kind::Receive => put_branches(alloc, out, parts, part.branches.as_slice()),
        Kind::Choice => put_block(alloc, out, parts, "choice", part),
        Kind::Interleave => put_block(alloc, out, parts, "interleave", part),
    }
}

fn put_arbiters(
    alloc: Global,
    out: &mut Text,
    parts: &Parts,
    arbiters: &[ArbiterPart],
) -> Result<(), OutOfMemory>
    ensures text { OnOk result (out.new.items ≡ out.old.items ++ text_of (flat_map (arbiter_lines parts.now) arbiters.now)) }
    ensures valued { OnOk result (All IsArbiterValued arbiters.now) }
{
    for part in arbiters {
        put_arbiter(alloc, out, parts, part)?;
    }
    Ok(())
}

fn put_domains(
    alloc: Global,
    out: &mut Text,
    parts: &Parts,
    domains: &[DomainPart],
) -> Result<(), OutOfMemory>
    ensures { OnOk result (out.new.items ≡ out.old.items ++ text_of (map (combine_words parts.now) domains.now)) }
{
    for part in domains {
        let mut line = LineWords::new(alloc);
        line.domain(parts, part)?;
        put_line(out, line.as_slice())?;
    }
    Ok(())
}

fn put_posts(
    alloc: Global,
    out: &mut Text,
    parts: &Parts,
    posts: &[ScriptPost],
) -> Result<(), OutOfMemory>
    ensures text { OnOk result (out.new.items ≡ out.old.items ++ text_of (map (post_words parts.now) posts.now)) }
    ensures valued { OnOk result (All (λ post. IsValue post.value) posts.now) }
{
    for post in posts {
        let mut line = LineWords::new(alloc);
        line.post(parts, post)?;
        put_line(out, line.as_slice())?;
    }
    Ok(())
}

fn put_poster(
    alloc: Global,
    out: &mut Text,
    parts: &Parts,
    part: &PosterPart,
) -> Result<(), OutOfMemory>
    ensures text { OnOk result (out.new.items ≡ out.old.items ++ text_of (poster_lines parts.now part.now)) }
    ensures valued { OnOk result (IsPosterValued part.now) }
{
    put_named(alloc, out, "poster", &part.name)?;
    put_posts(alloc, out, parts, part.posts.as_slice())?;
    put_end(alloc, out)
}

fn put_posters(
    alloc: Global,
    out: &mut Text,
    parts: &Parts,
    posters: &[PosterPart],
) -> Result<(), OutOfMemory>
    ensures text { OnOk result (out.new.items ≡ out.old.items ++ text_of (flat_map (poster_lines parts.now) posters.now)) }
    ensures valued { OnOk result (All IsPosterValued posters.now) }
{
    for part in posters {
        put_poster(alloc, out, parts, part)?;
    }
    Ok(())
}

fn put_version(alloc: Global, out: &mut Text, version: u32) -> Result<(), OutOfMemory>
    ensures { OnOk result (out.new.items ≡ out.old.items ++ line_text (version_words version)) }
{
    let mut line = LineWords::new(alloc);
    line.version(version)?;
    put_line(out, line.as_slice())
}

/// The version, the budget and the queues.
#[tactic(auto, unfolding(crate::specs::Spelling::queue_lines))]
fn put_queue_lines(alloc: Global, out: &mut Text, parts: &Parts) -> Result<(), OutOfMemory>
    ensures { OnOk result (out.new.items ≡ out.old.items ++ text_of (queue_lines parts.now)) }
{
    put_version(alloc, out, parts.version)?;
    put_budget(alloc, out, parts.budget)?;
    put_queues(alloc, out, parts.queues.as_slice())
}

/// The ports, the port sets and the causes.
#[tactic(auto, unfolding(crate::specs::Spelling::port_lines))]
fn put_port_lines(alloc: Global, out: &mut Text, parts: &Parts) -> Result<(), OutOfMemory>
    ensures { OnOk result (out.new.items ≡ out.old.items ++ text_of (port_lines parts.now)) }
{
    put_ports(alloc, out, parts.ports.as_slice())?;
    put_sets(alloc, out, parts, parts.sets.as_slice())?;
    put_causes(alloc, out, parts, parts.causes.as_slice())
}

/// The handlers, the arbiters, the combined Interleaves and the posters.
#[tactic(auto, unfolding(crate::specs::Spelling::acting_lines))]
fn put_acting_lines(alloc: Global, out: &mut Text, parts: &Parts) -> Result<(), OutOfMemory>
    ensures text { OnOk result (out.new.items ≡ out.old.items ++ text_of (acting_lines parts.now)) }
    ensures valued { OnOk result (IsValued parts.now) }
{
    put_handlers(alloc, out, parts, parts.handlers.as_slice())?;
    put_arbiters(alloc, out, parts, parts.arbiters.as_slice())?;
    put_domains(alloc, out, parts, parts.domains.as_slice())?;
    put_posters(alloc, out, parts, parts.posters.as_slice())
}

fn put_parts(alloc: Global, out: &mut Text, parts: &Parts) -> Result<(), OutOfMemory>
    ensures text { OnOk result (out.new.items ≡ out.old.items ++ spelling parts.now) }
    ensures valued { OnOk result (IsValued parts.now) }
{
    put_queue_lines(alloc, out, parts)?;
    put_port_lines(alloc, out, parts)?;
    put_acting_lines(alloc, out, parts)
}

/// The canonical text of a wiring: single spaces, LF after each line, no line that a reader skips, numbers without
/// leading zeros, plain port names, and the kinds in one order.
pub fn write_wiring(alloc: Global, w: &Wiring) -> Result<List<u8>, OutOfMemory>
    ensures spelling { IfOk result (λ text. text ≡ spelling w.now) }
    ensures read { IfOk result (λ text. is_closed w.now ≡ true → reading_text text ≡ Ok w.now) }
{
    what_is_written_is_read();
    let mut out = Vec::new(alloc);
    put_parts(alloc, &mut out, w.parts())?;
    Ok(List::from_vec(out))
}
