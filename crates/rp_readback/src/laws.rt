//! Laws of the texts of a report as words of a script. No program calls these functions.
ghost use Rattle.std.specs.Prelude.{◌≡◌, Ok};
ghost use Rattle.rp_request.specs.Fits.{FitsRequest};
ghost use Rattle.rp_request.specs.Words.{words_of};
ghost use Rattle.rp_request.specs.declared.requests.Request.{Request};
ghost use Rattle.rp_script.specs.Requests.{request};
ghost use Rattle.rp_report.specs.Items.{request_text};

/// A request is spelled as in a `send` line: a script reads its words as this request.
#[tactic(auto, using(crate::proofs::ReadBack::read_back))]
pub fn requests_are_read_back()
    ensures { (q : Request) → FitsRequest q → request (words_of (request_text q)) ≡ Ok q }
{}
