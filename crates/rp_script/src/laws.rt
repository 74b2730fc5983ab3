//! Laws of the definitions that the contracts cite. Each is the clause of an empty function.

ghost use Rattle.rp_script.specs.Reading.{ReadsMeaning, ReadsPieces};
ghost use Rattle.rp_script.specs.Causes.{RefusedExactly, LinesRefusedExactly, RequestsRefusedExactly, LongTextsAlone, KindsOfRules};

/// To read a script byte after byte, as the reader does, gives its meaning, which is said line by
/// line.
#[tactic(auto, using(crate::proofs::ReadsLines::reads_meaning))]
pub fn reads_meaning()
    ensures { ReadsMeaning }
{}

/// The pieces in which a source comes make no difference.
#[tactic(auto, using(crate::proofs::ReadsLines::reads_pieces))]
pub fn reads_pieces()
    ensures { ReadsPieces }
{}

/// A line that begins so is refused at its first word by a rule, or else at a later word that is
/// wrong by its place, where all words in front of it are right; and so alone.
#[tactic(auto, using(crate::proofs::Rules::refused_exactly))]
pub fn refused_exactly()
    ensures { RefusedExactly }
{}

/// The words of a request alone are refused just so.
pub fn requests_refused_exactly()
    ensures { RequestsRefusedExactly }
{}

/// A bad byte refuses its line before all else, at its word, or at word 0 of a comment.
#[tactic(auto, using(crate::proofs::Rules::lines_refused_exactly))]
pub fn lines_refused_exactly()
    ensures { LinesRefusedExactly }
{}

/// In a line without a bad byte a text is refused where more than 64 bytes follow the apostrophe,
/// and nowhere else.
pub fn long_texts_alone()
    ensures { LongTextsAlone }
{}

/// No rule of a script refuses a line by a kind that speaks of a report.
#[tactic(auto, using(crate::proofs::OfRules::kinds_of_rules))]
pub fn kinds_of_rules()
    ensures { KindsOfRules }
{}
