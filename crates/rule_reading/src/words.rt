//! The words of a rule document.
ghost use Rattle.std.specs.Prelude.{◌≡◌};

// A word of a rule document.
#[derive(Clone, Copy, Drop)]
pub(crate) enum Word {
    By,
    Hub,
    HubBlank,
    HubOnly,
    Names,
    Object,
    Pairs,
    Rules,
    Same,
    Scale,
    Split,
    Spoke,
    SpokeBlank,
    SpokeOnly,
    Spokes,
    Table,
}

impl Word {
    ghost use Rattle.rule_reading.specs.Words.{word};

    #[tactic(auto, unfolding(crate::specs::Words::word))]
    pub(crate) fn text(self) -> &'static str
        ensures { result.now ≡ word self }
    {
        match self {
            Word::By => "by",
            Word::Hub => "hub",
            Word::HubBlank => "hubBlank",
            Word::HubOnly => "hubOnly",
            Word::Names => "names",
            Word::Object => "object",
            Word::Pairs => "pairs",
            Word::Rules => "rules",
            Word::Same => "same",
            Word::Scale => "scale",
            Word::Split => "split",
            Word::Spoke => "spoke",
            Word::SpokeBlank => "spokeBlank",
            Word::SpokeOnly => "spokeOnly",
            Word::Spokes => "spokes",
            Word::Table => "table",
        }
    }
}
