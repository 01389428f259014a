//! Machines whose states are sets of flags.

ghost use Rattle.std.specs.Prelude.{◌≡◌, ◌↔◌, true, IsTrue, IsOk, IfOk, IfErr, All};
ghost use Rattle.example_door.specs.Machines.{transition, allows, after, after_all, holds, Keeps, keeps_from, keeps_from_least, first, second, IsRefusal};

use crate::flag::Flag;
use enumset_sets::EnumSet;
use std::fmt;

/// What a transition asks of a state, and what it changes.
#[derive(Clone, Copy, Debug)]
pub struct Transition {
    /// The flags that must be set.
    pub required: EnumSet<Flag>,
    /// The flags that must not be set.
    pub forbidden: EnumSet<Flag>,
    pub clears: EnumSet<Flag>,
    pub sets: EnumSet<Flag>,
}

/// Why a transition may not be taken.
#[derive(Clone, Copy, Debug)]
pub struct Refusal {
    /// What must be set, and is not.
    pub missing: EnumSet<Flag>,
    /// What must not be set, and is.
    pub barring: EnumSet<Flag>,
}

/// What must hold of every state.
#[derive(Clone, Copy, Debug)]
pub enum Rule {
    /// The two flags are not both set.
    NeverBoth(Flag, Flag),
    /// If the first flag is set, so is the second.
    Implies(Flag, Flag),
}

impl Rule {
    /// Whether the rule holds of a state.
    pub fn holds(self, state: EnumSet<Flag>) -> bool
        ensures { result ≡ holds self state }
    {
        match self {
            Rule::NeverBoth(one, other) => !(state.contains(one) && state.contains(other)),
            Rule::Implies(one, other) => !state.contains(one) || state.contains(other),
        }
    }
}

impl Transition {
    pub fn new(
        required: EnumSet<Flag>,
        forbidden: EnumSet<Flag>,
        clears: EnumSet<Flag>,
        sets: EnumSet<Flag>,
    ) -> Transition
        ensures { result ≡ transition required forbidden clears sets }
    {
        Transition {
            required,
            forbidden,
            clears,
            sets,
        }
    }

    /// The state after the transition, or why it may not be taken.
    pub fn step(&self, state: EnumSet<Flag>) -> Result<EnumSet<Flag>, Refusal>
        ensures taken { IsOk result ↔ IsTrue (allows self.now state) }
        ensures next { IfOk result (λ next. next ≡ after self.now state) }
        ensures refused { IfErr result (IsRefusal self.now state) }
    {
        if self.required.is_subset(state) && self.forbidden.is_disjoint(state) {
            Ok(state - self.clears | self.sets)
        } else {
            Err(Refusal {
                missing: self.required - state,
                barring: self.forbidden & state,
            })
        }
    }

    /// Whether the transition keeps a rule: if the rule holds in a state, it holds after the step.
    ///
    /// Only the two flags of the rule matter, so it tries the states with what is required and any of the two. The
    /// program does not call it: it carries the theorem that these four states decide about all states.
    // `kept_iff` is the theorem of this function: what four states decide about all.
    #[tactic(auto, using(crate::proofs::Kept::kept_iff))]
    pub fn keeps(&self, rule: Rule) -> bool
        ensures { IsTrue result ↔ Keeps rule self.now }
    {
        match rule {
            Rule::NeverBoth(one, other) | Rule::Implies(one, other) => {
                self.keeps_from_least(rule, one, other)
            }
        }
    }

    /// Whether the rule, of these two flags, is kept in the steps from what is required and any of the two.
    fn keeps_from_least(&self, rule: Rule, one: Flag, other: Flag) -> bool
        requires first { first rule ≡ one }
        requires second { second rule ≡ other }
        ensures { result ≡ keeps_from_least rule self.now }
    {
        let least = self.required;
        self.keeps_from(rule, least)
            && self.keeps_from(rule, least | one)
            && self.keeps_from(rule, least | other)
            && self.keeps_from(rule, least | one | other)
    }

    /// Whether the rule is kept in a step from one state.
    fn keeps_from(&self, rule: Rule, state: EnumSet<Flag>) -> bool
        ensures { result ≡ keeps_from rule self.now state }
    {
        !rule.holds(state) || rule.holds(self.step(state).unwrap_or(state))
    }
}

/// The state after transitions in turn. A transition that may not be taken changes nothing.
///
/// The program does not call it. It carries the theorem that a rule which each transition keeps still holds at the end.
pub fn run(start: EnumSet<Flag>, transitions: &[Transition]) -> EnumSet<Flag>
    ensures steps { result ≡ after_all transitions.now start }
    ensures kept { (rule : Rule) → All (Keeps rule) transitions.now → holds rule start ≡ true →
        holds rule result ≡ true }
{
    let mut state = start;
    for transition in transitions {
        state = transition.step(state).unwrap_or(state);
    }
    state
}

/// What is missing, and what bars.
impl fmt::Display for Refusal {
    ghost use Rattle.example_door.specs.Texts.{refusal_text};

    ghost output = { refusal_text ⟦<EnumSet<Flag> as fmt::Display>⟧.output };

    fn fmt<W: fmt::Write>(&self, f: &mut fmt::Formatter<W>) -> fmt::Result {
        f.write_str("refused")?;
        if !self.missing.is_empty() {
            write!(f, " without {}", self.missing)?;
        }
        if !self.barring.is_empty() {
            write!(f, " while {}", self.barring)?;
        }
        Ok(())
    }
}
