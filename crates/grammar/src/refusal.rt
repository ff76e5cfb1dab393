// Why a sheet is refused.
ghost use Rattle.std.specs.Prelude.{◌≡◌, Some};
ghost use Rattle.grammar.specs.Refusals.{rule_number, refusal_number, layer_of};
ghost use Rattle.grammar.specs.Sentences.{layer_text, plan_sentence, refusal_sentence};
ghost use Rattle.grammar.specs.declared.refusal.Refusal.TheVariants.{Plan};

use std::error::Error;
use std::fmt;

// The rules of a plan, in the order in which they are looked at.
#[derive(Clone, Copy, Debug, PartialEq, Eq)]
pub enum PlanRule {
    ReturnsInOrder,
    OneEvaluation,
    VisitsInOrder,
    InheritedBeforeVisit,
    SynthesizedBeforeReturn,
    ArgumentsFirst,
}

// What is wrong with a line, or with the text as a whole.
#[derive(Clone, Copy, Debug, PartialEq, Eq)]
pub enum Refusal {
    Length,
    LineForm,
    Range,
    Absent,
    Start,
    Target,
    BadArgument,
    Plan(PlanRule),
}

// The part of the rules that a refusal belongs to.
#[derive(Clone, Copy, Debug, PartialEq, Eq)]
pub enum Layer {
    OfText,
    OfGrammar,
    OfPlan,
}

// The numbers are no discriminants: `Refusal` carries a rule and so cannot have them, and two ways of numbering side by
// side would be no plainer.
impl From<PlanRule> for u8 {
    ghost from_gives = { λ rule n. n ≡ rule_number rule };

    fn from(rule: PlanRule) -> u8 {
        match rule {
            PlanRule::ReturnsInOrder => 1,
            PlanRule::OneEvaluation => 2,
            PlanRule::VisitsInOrder => 3,
            PlanRule::InheritedBeforeVisit => 4,
            PlanRule::SynthesizedBeforeReturn => 5,
            PlanRule::ArgumentsFirst => 6,
        }
    }
}

impl From<Refusal> for u8 {
    ghost from_gives = { λ refusal n. n ≡ refusal_number refusal };

    fn from(refusal: Refusal) -> u8 {
        match refusal {
            Refusal::Length => 1,
            Refusal::LineForm => 2,
            Refusal::Range => 3,
            Refusal::Absent => 4,
            Refusal::Start => 5,
            Refusal::Target => 6,
            Refusal::BadArgument => 7,
            Refusal::Plan(_) => 8,
        }
    }
}

impl From<PlanRule> for Refusal {
    ghost from_gives = { λ rule refusal. refusal ≡ Plan rule };

    fn from(broken: PlanRule) -> Refusal {
        Refusal::Plan(broken)
    }
}

impl PlanRule {
    // One plain sentence that says how a plan breaks the rule.
    pub fn sentence(self) -> &'static str
        ensures { result.now ≡ plan_sentence self }
    {
        match self {
            PlanRule::ReturnsInOrder =>
                "The returns of this plan are not r1 up to the last visit of the rule's left symbol, in order, with the last one at the end.",
            PlanRule::OneEvaluation =>
                "An attribute that the rule defines is not evaluated exactly once in this plan, or another one is evaluated.",
            PlanRule::VisitsInOrder =>
                "The visits to some right occurrence do not all stand in this plan once each, in order.",
            PlanRule::InheritedBeforeVisit =>
                "A visit stands in this plan before the evaluation of an inherited attribute that goes down with it.",
            PlanRule::SynthesizedBeforeReturn =>
                "A return stands in this plan before the evaluation of a synthesized attribute that goes up with it.",
            PlanRule::ArgumentsFirst =>
                "An evaluation stands in this plan before the visit that gives one of its arguments, or in an earlier segment than the argument's.",
        }
    }
}

impl Refusal {
    pub fn layer(self) -> Layer
        ensures { result ≡ layer_of self }
    {
        match self {
            Refusal::Length | Refusal::LineForm | Refusal::Range => Layer::OfText,
            Refusal::Absent | Refusal::Start | Refusal::Target | Refusal::BadArgument =>
                Layer::OfGrammar,
            Refusal::Plan(_) => Layer::OfPlan,
        }
    }

    // One plain sentence that says what is wrong.
    pub fn sentence(self) -> &'static str
        ensures { result.now ≡ refusal_sentence self }
    {
        match self {
            Refusal::Length => "A sheet has 1 to 32,768 bytes; this text has none, or more.",
            Refusal::LineForm =>
                "This line has not the form of a sheet's line, or may not stand here; or the text ends early.",
            Refusal::Range =>
                "A number in this line is outside its range, or there are too many symbols, rules, right symbols, attributes, arguments, sets or instructions.",
            Refusal::Absent =>
                "This line names a symbol, an occurrence, an attribute or a visit that is not there.",
            Refusal::Start =>
                "The first symbol is the start: it has one visit and no inherited attribute.",
            Refusal::Target =>
                "An equation here is for an attribute that the rule does not define or that has one already; or, at a plan, an attribute that the rule defines has no equation.",
            Refusal::BadArgument =>
                "An argument is an inherited attribute of the left occurrence, a synthesized one of a right occurrence, or d; one here is none of these.",
            Refusal::Plan(rule) => rule.sentence(),
        }
    }
}

impl fmt::Display for Layer {
    ghost output = { λ layer. Some (layer_text layer) };

    fn fmt<W: fmt::Write>(&self, f: &mut fmt::Formatter<W>) -> fmt::Result {
        f.write_str(match self {
            Layer::OfText => "text",
            Layer::OfGrammar => "grammar",
            Layer::OfPlan => "plan",
        })
    }
}

impl fmt::Display for PlanRule {
    ghost output = { λ rule. Some (plan_sentence rule) };

    fn fmt<W: fmt::Write>(&self, f: &mut fmt::Formatter<W>) -> fmt::Result {
        f.write_str(self.sentence())
    }
}

impl fmt::Display for Refusal {
    ghost output = { λ refusal. Some (refusal_sentence refusal) };

    fn fmt<W: fmt::Write>(&self, f: &mut fmt::Formatter<W>) -> fmt::Result {
        f.write_str(self.sentence())
    }
}

impl Error for PlanRule {}

impl Error for Refusal {}
