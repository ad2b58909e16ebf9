//! The words of the canonical lines.

ghost use Rattle.std.specs.Prelude.{◌≡◌, [], ◌∷◌, ◌++◌, OnOk, IfOk, map, flat_map, decimal};
ghost use Rattle.ccr_wiring.specs.PartNames.{port_name, arbiter_name, cause_name};
ghost use Rattle.ccr_wiretext.specs.Spelling.{version_words, combine_words, budget_words, policy_words, queue_words, set_words, cause_words, expr_words, action_words, end_words, pred_words, slot_words, pattern_words, group_words, branch_words, post_words};
ghost use Rattle.ccr_text.specs.Exact.{value_word};
ghost use Rattle.std.specs.List.{All};
ghost use Rattle.ccr_wiretext.specs.Values.{IsNumeral, IsValue, IsExprValued, IsActionValued, IsPredValued, IsPatternValued};

use ccr_base::{
    Action, ArbiterNo, CauseNo, Expr, Group, Name, OutOfMemory, Pattern, Policy, PortNo, Pred,
    Slot, Value, name_of,
};
use ccr_wiring::{
    BranchPart, CausePart, DomainPart, Parts, QueuePart, ScriptPost, SetPart, arbiter_name,
    cause_name, handler_name, port_name, queue_name,
};
use std::alloc::Global;
use std::marker::Model;

/// Adds the digits of a number.
fn put_digits(alloc: Global, out: &mut Vec<u8>, number: u64) -> Result<(), OutOfMemory>
    ensures text { OnOk result (out.new.items ≡ out.old.items ++ decimal number) }
    ensures valued { OnOk result (IsNumeral number) }
{
    let digits = number.to_string(alloc)?;
    out.extend_from_slice(digits.as_bytes())?;
    Ok(())
}

/// Adds a comma and the digits of a number, for each.
fn put_further(alloc: Global, out: &mut Vec<u8>, numbers: &[u64]) -> Result<(), OutOfMemory>
    ensures text { OnOk result (out.new.items ≡ out.old.items ++ flat_map (λ number. 44 ∷ decimal number) numbers.now) }
    ensures valued { OnOk result (All IsNumeral numbers.now) }
{
    for number in numbers {
        out.push(b',')?;
        put_digits(alloc, out, *number)?;
    }
    Ok(())
}

/// Adds the digits of numbers, with commas between them.
#[tactic(auto, using(crate::proofs::ValuesRead::value_put, crate::proofs::ValuesRead::numerals_more))]
fn put_numbers(
    alloc: Global,
    out: &mut Vec<u8>,
    first: u64,
    others: &[u64],
) -> Result<(), OutOfMemory>
    ensures text { OnOk result (out.new.items ≡ out.old.items ++ value_word (first ∷ others.now)) }
    ensures valued { OnOk result (All IsNumeral (first ∷ others.now)) }
{
    put_digits(alloc, out, first)?;
    put_further(alloc, out, others)
}

/// The digits of a value's numbers, with commas between them.
#[tactic(auto, unfolding(crate::specs::Values::IsValue))]
fn value_word(alloc: Global, value: &Value) -> Result<Vec<u8>, OutOfMemory>
    ensures word { IfOk result (λ word. word.items ≡ value_word value.now) }
    ensures valued { OnOk result (IsValue value.now) }
{
    let Some((first, others)) = value.numbers().split_first() else {
        unreachable!()
    };
    let mut word = Vec::new(alloc);
    put_numbers(alloc, &mut word, *first, others)?;
    Ok(word)
}

/// The words of a line that is written, from the first on.
#[derive(Drop)]
pub struct LineWords {
    alloc: Global,
    words: Vec<Name>,
}

impl Model for LineWords {
    ghost use Rattle.std.specs.Prelude.{List as Listed, ℕ};

    ghost Value = { Listed (Listed ℕ) };

    ghost view = { λ line. line.words.items };
}

impl LineWords {
    pub fn new(alloc: Global) -> Self
        ensures { result ≡ [] }
    {
        LineWords {
            alloc,
            words: Vec::new(alloc),
        }
    }

    pub fn as_slice(&self) -> &[Name]
        ensures { result.now ≡ self.now }
    {
        &self.words
    }

    fn word(&mut self, word: &[u8]) -> Result<(), OutOfMemory>
        ensures { OnOk result (self.new ≡ self.old ++ word.now ∷ []) }
    {
        let word = name_of(self.alloc, word)?;
        self.words.push(word)?;
        Ok(())
    }

    fn text(&mut self, word: &str) -> Result<(), OutOfMemory>
        ensures { OnOk result (self.new ≡ self.old ++ word.now ∷ []) }
    {
        self.word(word.as_bytes())
    }

    fn number(&mut self, number: u64) -> Result<(), OutOfMemory>
        ensures words { OnOk result (self.new ≡ self.old ++ decimal number ∷ []) }
        ensures valued { OnOk result (IsNumeral number) }
    {
        let digits = number.to_string(self.alloc)?;
        self.word(digits.as_bytes())
    }

    fn keyed(&mut self, word: &str, number: u64) -> Result<(), OutOfMemory>
        ensures words { OnOk result (self.new ≡ self.old ++ word.now ∷ decimal number ∷ []) }
        ensures valued { OnOk result (IsNumeral number) }
    {
        self.text(word)?;
        self.number(number)
    }

    fn value(&mut self, value: &Value) -> Result<(), OutOfMemory>
        ensures words { OnOk result (self.new ≡ self.old ++ value_word value.now ∷ []) }
        ensures valued { OnOk result (IsValue value.now) }
    {
        let word = value_word(self.alloc, value)?;
        self.word(&word)
    }

    fn policy(&mut self, policy: Policy) -> Result<(), OutOfMemory>
        ensures { OnOk result (self.new ≡ self.old ++ policy_words policy) }
    {
        match policy {
            Policy::Unbounded => self.text("unbounded"),
            Policy::Discard(limit) => self.keyed("discard", u64::from(limit)),
            Policy::Throttle(limit) => self.keyed("throttle", u64::from(limit)),
        }
    }

    fn expr(&mut self, expr: Expr) -> Result<(), OutOfMemory>
        ensures words { OnOk result (self.new ≡ self.old ++ expr_words expr) }
        ensures valued { OnOk result (IsExprValued expr) }
    {
        match expr {
            Expr::Number(value) => self.value(&value),
            Expr::Part(message, index) => {
                self.keyed("part", u64::from(message))?;
                self.number(u64::from(index))
            }
            Expr::Arg(message) => self.keyed("arg", u64::from(message)),
            Expr::Sum => self.text("sum"),
            Expr::Count => self.text("count"),
        }
    }

    fn pred(&mut self, pred: Pred) -> Result<(), OutOfMemory>
        ensures words { OnOk result (self.new ≡ self.old ++ pred_words pred) }
        ensures valued { OnOk result (IsPredValued pred) }
    {
        match pred {
            Pred::Any => self.text("any"),
            Pred::Eq(value) => self.keyed("eq", value),
            Pred::Lt(value) => self.keyed("lt", value),
            Pred::Ge(value) => self.keyed("ge", value),
        }
    }

    fn ports(&mut self, parts: &Parts, ports: &[PortNo]) -> Result<(), OutOfMemory>
        ensures { OnOk result (self.new ≡ self.old ++ map (port_name parts.now) ports.now) }
    {
        for port in ports {
            self.word(port_name(parts, *port))?;
        }
        Ok(())
    }

    fn arbiters(&mut self, parts: &Parts, arbiters: &[ArbiterNo]) -> Result<(), OutOfMemory>
        ensures { OnOk result (self.new ≡ self.old ++ map (arbiter_name parts.now) arbiters.now) }
    {
        for arbiter in arbiters {
            self.word(arbiter_name(parts, *arbiter))?;
        }
        Ok(())
    }

    fn causes(&mut self, parts: &Parts, causes: &[CauseNo]) -> Result<(), OutOfMemory>
        ensures { OnOk result (self.new ≡ self.old ++ map (cause_name parts.now) causes.now) }
    {
        for cause in causes {
            self.word(cause_name(parts, *cause))?;
        }
        Ok(())
    }

    fn slot(&mut self, parts: &Parts, slot: Slot) -> Result<(), OutOfMemory>
        ensures words { OnOk result (self.new ≡ self.old ++ slot_words parts.now slot) }
        ensures valued { OnOk result (IsPredValued slot.pred) }
    {
        self.word(port_name(parts, slot.port))?;
        self.number(u64::from(slot.least))?;
        self.pred(slot.pred)
    }

    fn slots(&mut self, parts: &Parts, slots: &[Slot]) -> Result<(), OutOfMemory>
        ensures words { OnOk result (self.new ≡ self.old ++ flat_map (slot_words parts.now) slots.now) }
        ensures valued { OnOk result (All (λ slot. IsPredValued slot.pred) slots.now) }
    {
        for slot in slots {
            self.slot(parts, *slot)?;
        }
        Ok(())
    }

    pub fn pattern(&mut self, parts: &Parts, pattern: &Pattern) -> Result<(), OutOfMemory>
        ensures words { OnOk result (self.new ≡ self.old ++ pattern_words parts.now pattern.now) }
        ensures valued { OnOk result (IsPatternValued pattern.now) }
    {
        match pattern {
            Pattern::Slots(slots) => {
                self.text("take")?;
                self.slots(parts, slots.as_slice())
            }
            Pattern::Gather {
                total,
                first,
                second,
            } => {
                self.keyed("gather", u64::from(*total))?;
                self.word(port_name(parts, *first))?;
                self.word(port_name(parts, *second))
            }
        }
    }

    fn group(&mut self, name: &[u8], group: Group) -> Result<(), OutOfMemory>
        ensures { OnOk result (self.new ≡ self.old ++ group_words name.now group) }
    {
        match group {
            Group::Once => {
                self.word_and_name("receive", name)?;
                self.text("once")
            }
            Group::Always => {
                self.word_and_name("receive", name)?;
                self.text("always")
            }
            Group::Choice => self.word_and_name("branch", name),
            Group::Teardown => self.word_and_name("teardown", name),
            Group::Exclusive => self.word_and_name("exclusive", name),
            Group::Concurrent => self.word_and_name("concurrent", name),
        }
    }

    /// The word `first` and a name.
    pub fn word_and_name(&mut self, first: &str, name: &[u8]) -> Result<(), OutOfMemory>
        ensures { OnOk result (self.new ≡ self.old ++ first.now ∷ name.now ∷ []) }
    {
        self.text(first)?;
        self.word(name)
    }

    /// The line that gives the version.
    pub fn version(&mut self, version: u32) -> Result<(), OutOfMemory>
        ensures { OnOk result (self.new ≡ self.old ++ version_words version) }
    {
        self.text("ccr")?;
        if version == 2 {
            self.text("2")
        } else {
            self.text("1")
        }
    }

    pub fn budget(&mut self, budget: u32) -> Result<(), OutOfMemory>
        ensures { OnOk result (self.new ≡ self.old ++ budget_words budget) }
    {
        self.keyed("budget", u64::from(budget))
    }

    pub fn queue(&mut self, part: &QueuePart) -> Result<(), OutOfMemory>
        ensures { OnOk result (self.new ≡ self.old ++ queue_words part.now) }
    {
        self.word_and_name("queue", part.name.as_slice())?;
        self.policy(part.policy)
    }

    pub fn set(&mut self, parts: &Parts, part: &SetPart) -> Result<(), OutOfMemory>
        ensures { OnOk result (self.new ≡ self.old ++ set_words parts.now part.now) }
    {
        self.word_and_name("portset", part.name.as_slice())?;
        self.ports(parts, part.ports.as_slice())
    }

    pub fn cause(&mut self, parts: &Parts, part: &CausePart) -> Result<(), OutOfMemory>
        ensures { OnOk result (self.new ≡ self.old ++ cause_words parts.now part.now) }
    {
        self.word_and_name("cause", part.name.as_slice())?;
        self.word(port_name(parts, part.port))
    }

    pub fn domain(&mut self, parts: &Parts, part: &DomainPart) -> Result<(), OutOfMemory>
        ensures { OnOk result (self.new ≡ self.old ++ combine_words parts.now part.now) }
    {
        self.text("combine")?;
        self.arbiters(parts, part.members.as_slice())
    }

    pub fn action(&mut self, parts: &Parts, action: &Action) -> Result<(), OutOfMemory>
        ensures words { OnOk result (self.new ≡ self.old ++ action_words parts.now action.now) }
        ensures valued { OnOk result (IsActionValued action.now) }
    {
        match *action {
            Action::Post(port, value) => {
                self.word_and_name("post", port_name(parts, port))?;
                self.expr(value)
            }
            Action::Fail(value) => {
                self.text("fail")?;
                self.expr(value)
            }
            Action::Add(cause) => self.word_and_name("add", cause_name(parts, cause)),
            Action::Remove(cause) => self.word_and_name("remove", cause_name(parts, cause)),
            Action::Await(port) => self.word_and_name("await", port_name(parts, port)),
        }
    }

    pub fn branch(&mut self, parts: &Parts, branch: &BranchPart) -> Result<(), OutOfMemory>
        ensures words { OnOk result (self.new ≡ self.old ++ branch_words parts.now branch.now) }
        ensures valued { OnOk result (IsPatternValued branch.now.pattern) }
    {
        self.group(branch.name.as_slice(), branch.group)?;
        self.word(queue_name(parts, branch.queue))?;
        self.word(handler_name(parts, branch.handler))?;
        self.pattern(parts, &branch.pattern)
    }

    pub fn post(&mut self, parts: &Parts, post: &ScriptPost) -> Result<(), OutOfMemory>
        ensures words { OnOk result (self.new ≡ self.old ++ post_words parts.now post.now) }
        ensures valued { OnOk result (IsValue post.now.value) }
    {
        self.word_and_name("post", port_name(parts, post.port()))?;
        self.value(&post.value())?;
        self.causes(parts, post.causes())
    }

    pub fn end(&mut self) -> Result<(), OutOfMemory>
        ensures { OnOk result (self.new ≡ self.old ++ end_words) }
    {
        self.text("end")
    }
}
