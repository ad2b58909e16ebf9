//! A history's text judged while it is read.

ghost use Rattle.std.specs.Prelude.{◌≡◌, ◌≤◌, ◌++◌, ◌∷◌, [], Err, IfErr, IfNone, IfOk, Ok, OnOk, length, true};
ghost use Rattle.ccr_base.specs.Bounds.{most_bytes};
ghost use Rattle.ccr_wiring.specs.Openness.{is_closed};
ghost use Rattle.ccr_model.specs.Rules.{refusal};
ghost use Rattle.ccr_telling.specs.Tallies.{IsCounting};
ghost use Rattle.ccr_trace.specs.Answers.{IsReading};
ghost use Rattle.ccr_trace.specs.EventReaders.{reading_of};
ghost use Rattle.ccr_trace.specs.Reading.{reading};
ghost use Rattle.ccr_telling.specs.Judging.{AgreesSoFar, HasJudged, IsJudged, IsJudgedHistory, IsJudgedWhole, IsToldOf};

use crate::Tally;
use ccr_base::OutOfMemory;
use ccr_checker::Checker;
use ccr_model::{Event, Rule};
use ccr_report::Counts;
use ccr_trace::{EventReader, HistoryRefused};
use ccr_wiring::Wiring;
use std::alloc::Global;

/// What is told of a text that begins with a legal history: its counts, the byte where it ends, and how many lines stand before that.
#[derive(Drop)]
pub struct LegalText {
    pub complete: bool,
    pub quiet: bool,
    pub counts: Counts,
    pub rest: usize,
    pub lines: u32,
}

/// What is found of the history that a text begins with.
#[derive(Drop)]
pub enum Judgement {
    /// The event at this index is refused after those before it, first by this rule.
    Illegal { at: u32, rule: Rule },
    Legal(LegalText),
}

/// Accepts and counts the event, or answers the rule that refuses it first.
fn judge_event(
    checker: &mut Checker<'_>,
    tally: &mut Tally,
    event: &Event,
) -> Result<Option<Rule>, OutOfMemory>
    ensures rule { IfOk result (λ rule. rule ≡ refusal checker.old.wiring checker.old.history event.now) }
    ensures accepted { IfOk result (λ rule. IfNone rule (checker.new ≡ record checker.old { history = checker.old.history ++ event.now ∷ [] })) }
    ensures counted { IfOk result (λ rule. IfNone rule (is_closed checker.old.wiring ≡ true → IsCounting checker.old.wiring checker.old.history tally.old → IsCounting checker.old.wiring (checker.old.history ++ event.now ∷ []) tally.new)) }
{
    let rule = checker.refusal(event)?;
    if rule.is_some() {
        return Ok(rule);
    }
    tally.count(checker.tables()?, event);
    checker.accept(event)?;
    Ok(None)
}

/// Judges the event at this index, where none was refused before it.
fn judge_next(
    checker: &mut Checker<'_>,
    tally: &mut Tally,
    refusal: &mut Option<(u32, Rule)>,
    at: u32,
    event: &Event,
) -> Result<(), OutOfMemory>
    ensures { OnOk result (HasJudged at event.now checker.old tally.old refusal.old checker.new tally.new refusal.new) }
{
    if refusal.is_some() {
        return Ok(());
    }
    if let Some(rule) = judge_event(checker, tally, event)? {
        *refusal = Some((at, rule));
    }
    Ok(())
}

/// Judges each event until one is refused, whose index and rule it answers. The text is read to its end, since a line that can't be read
/// says more than an event that isn't allowed.
fn judge_events(
    reader: &mut EventReader<'_>,
    checker: &mut Checker<'_>,
    tally: &mut Tally,
) -> Result<Option<(u32, Rule)>, HistoryRefused>
    requires none { reader.old.so_far.history ≡ [] }
    requires agrees { AgreesSoFar reader.old checker.old tally.old }
    ensures reads { IfOk result (λ refusal. reading_of reader.old ≡ Ok reader.new.so_far) }
    ensures judged { IfOk result (IsJudgedWhole reader.old.wiring reader.new checker.new tally.new) }
    ensures refused { IfErr result (λ refusal. IsReading (Err refusal) (reading_of reader.old)) }
{
    let mut refusal: Option<(u32, Rule)> = None;
    'events: while let Some(event) = reader.next()? {
        judge_next(checker, tally, &mut refusal, reader.lines() - 2, &event)?;
    }
    Ok(refusal)
}

/// A judge, boxed, so that who drops it drops one value, and a tally before all events.
fn begin<'w>(alloc: Global, wiring: &'w Wiring) -> Result<(Box<Checker<'w>>, Tally), OutOfMemory>
    ensures checker { IfOk result (λ both. both.0.value ≡ record { wiring = wiring.now; history = [] }) }
    ensures tally { IfOk result (λ both. IsCounting wiring.now [] both.1) }
{
    let made = Checker::new(alloc, wiring)?;
    let checker = Box::new(alloc, made)?;
    let tally = Tally::of(alloc, wiring, &[], checker.tables()?)?;
    Ok((checker, tally))
}

/// What is told of a legal history that was read, by the judge and the tally that went along.
fn legal_text(
    alloc: Global,
    wiring: &Wiring,
    reader: &EventReader<'_>,
    checker: &mut Checker<'_>,
    tally: Tally,
) -> Result<LegalText, OutOfMemory>
    requires agrees { AgreesSoFar reader.now checker.old tally }
    requires wiring { reader.now.wiring ≡ wiring.now }
    ensures { IfOk result (IsToldOf wiring.now reader.now.so_far) }
{
    let complete = checker.complete()?;
    let quiet = checker.quiet()?;
    let counts = tally.into_counts(alloc, wiring, checker.tables()?)?;
    Ok(LegalText {
        complete,
        quiet,
        counts,
        rest: reader.rest(),
        lines: reader.lines(),
    })
}

/// What is found of the history that was read, of which this was refused first.
fn conclude(
    alloc: Global,
    wiring: &Wiring,
    reader: &EventReader<'_>,
    checker: &mut Checker<'_>,
    tally: Tally,
    refusal: Option<(u32, Rule)>,
) -> Result<Judgement, OutOfMemory>
    requires { IsJudgedWhole wiring.now reader.now checker.old tally refusal }
    ensures { IfOk result (IsJudgedHistory wiring.now reader.now.so_far) }
{
    if let Some((at, rule)) = refusal {
        return Ok(Judgement::Illegal { at, rule });
    }
    let found = legal_text(alloc, wiring, reader, checker, tally)?;
    Ok(Judgement::Legal(found))
}

/// What is found of the history whose events the reader is before.
fn judge_history(
    alloc: Global,
    wiring: &Wiring,
    reader: &mut EventReader<'_>,
) -> Result<Judgement, HistoryRefused>
    requires closed { is_closed wiring.now ≡ true }
    requires none { reader.old.so_far.history ≡ [] }
    requires wiring { reader.old.wiring ≡ wiring.now }
    ensures reads { IfOk result (λ judgement. reading_of reader.old ≡ Ok reader.new.so_far) }
    ensures judged { IfOk result (IsJudgedHistory wiring.now reader.new.so_far) }
    ensures refused { IfErr result (λ refusal. IsReading (Err refusal) (reading_of reader.old)) }
{
    let (mut checker, mut tally) = begin(alloc, wiring)?;
    let refusal = judge_events(reader, &mut checker, &mut tally)?;
    let found = conclude(alloc, wiring, reader, &mut checker, tally, refusal)?;
    Ok(found)
}

/// What is found of the history that a text begins with. Each event is judged when its line is read, and isn't kept.
pub fn judge_text(alloc: Global, wiring: &Wiring, text: &[u8]) -> Result<Judgement, HistoryRefused>
    requires closed { is_closed wiring.now ≡ true }
    requires few { length text.now ≤ most_bytes }
    ensures judged { IfOk result (IsJudged wiring.now text.now) }
    ensures refused { IfErr result (λ refusal. IsReading (Err refusal) (reading wiring.now text.now)) }
{
    let mut reader = EventReader::new(alloc, wiring, text)?;
    judge_history(alloc, wiring, &mut reader)
}
