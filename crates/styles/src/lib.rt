// How the value of a field is written (docs/TEXT.md, "Forms").
#![tactic(auto)]

// The form of a field's value.
#[derive(Clone, Copy, PartialEq, Eq, Debug, Default)]
pub enum Style {
    #[default]
    Number,
    Price,
    Clock,
    Text,
}
