// Why something is refused: the rules of docs/RULES.md, "Refusals", by name.
#![tactic(auto)]

ghost use Rattle.std.specs.Prelude.{◌≡◌};
ghost use Rattle.refusal.specs.Refusals.{number_by, verdict};

use std::error::Error;
use std::fmt;

// The first rule that applies. Its number is that of the table.
// Corresponds to spline.rs: the strings of Err.
#[derive(Clone, Copy, Debug, PartialEq, Eq)]
pub enum Refusal {
    OddCoordinates = 1,
    FewHandles = 2,
    FewControlPoints = 3,
    ManyHandles = 4,
    KnotsWithFitPoints = 5,
    KnotCount = 6,
    UnfitKnot = 7,
    NotClamped = 8,
    NoInterval = 9,
    CrowdedKnot = 10,
    WildCoordinate = 11,
    WildParameter = 12,
    TooMuchAsked = 13,
    ShortSlice = 14,
    WildOutcome = 15,
    NoSheet = 16,
    RecordMismatch = 17,
}

impl Refusal {
    // The rule's number.
    pub fn number(self) -> u64
        ensures { result ≡ number_by self }
    {
        self as u64
    }
}

impl fmt::Display for Refusal {
    fn fmt<W: fmt::Write>(&self, f: &mut fmt::Formatter<W>) -> fmt::Result {
        let why = match self {
            Refusal::OddCoordinates => "a slice of coordinates has odd length",
            Refusal::FewHandles => "there are fewer than 2 handles",
            Refusal::FewControlPoints => "there are 2 or 3 control points",
            Refusal::ManyHandles => "there are over 64 fit points, or over 66 control points",
            Refusal::KnotsWithFitPoints => "knots are given with fit points",
            Refusal::KnotCount => "the knots are not 4 more than the control points",
            Refusal::UnfitKnot => "a knot is not finite, or less than the one before it",
            Refusal::NotClamped => "the first four knots are not equal, or the last four",
            Refusal::NoInterval => "the first knot is not below the last",
            Refusal::CrowdedKnot => "a knot inside stands more than 3 times in the list",
            Refusal::WildCoordinate => "a coordinate is not finite",
            Refusal::WildParameter => "the parameter is not finite",
            Refusal::TooMuchAsked => "the order is above 4, or there are over 16 samples to a span",
            Refusal::ShortSlice => "a slice for an answer or for work is too short",
            Refusal::WildOutcome => "an outcome is not finite",
            Refusal::NoSheet => "a sheet has not the form",
            Refusal::RecordMismatch =>
                "a stored length is not the sum, or an index is not below the count",
        };
        write!(f, "{why}")
    }
}

impl Error for Refusal {}

// The number that C is told: 0 where nothing is refused.
pub fn number_of(answer: Result<(), Refusal>) -> u64
    ensures { result ≡ (verdict answer).number }
{
    match answer {
        Ok(()) => 0,
        Err(refusal) => refusal.number(),
    }
}
